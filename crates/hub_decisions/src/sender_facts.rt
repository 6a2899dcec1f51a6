use hub_rules::Sender;
use inf_fields::Fields;
use login_state::Stage;
use std::marker::Model;

/// The connection that sent a line.
#[derive(Drop)]
pub struct SenderFacts<'a> {
    /// The plain fields of the connection.
    pub sender: &'a Sender,
    /// The stage to which it has come.
    pub stage: Stage,
    /// The fields of its user, from its login on.
    pub fields: Option<&'a Fields>,
    /// The digest that its password must give, while it waits for one.
    pub expected: Option<[u8; 24]>,
}

impl<'a> Model for SenderFacts<'a> {
    ghost use Rattle.hub_rules.specs.Views.{SenderView as OwnConnection};

    ghost Value = { OwnConnection };

    ghost use Rattle.hub_decisions.specs.SenderFactsView.{own_view};

    ghost view = { own_view };
}
