//! The laws of the hub: what its rules come to over whole histories.
#![tactic(auto)]

mod laws;
mod users_laws;

pub use laws::{
    account_laws, counting_laws, decision_laws, identifier_laws, knowledge_laws, leaving_laws,
    operator_laws, order_laws, password_laws, presence_laws, removal_laws, routing_laws,
    secret_laws, take_laws,
};
pub use users_laws::{
    command_laws, form_laws, greeting_laws, hearing_laws, limit_laws, list_laws, login_laws,
    message_laws, origin_laws, outsider_laws, owner_laws, refusal_laws, search_laws,
};
