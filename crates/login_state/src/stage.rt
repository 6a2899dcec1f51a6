ghost use Rattle.std.specs.Prelude.{◌≡◌};
ghost use Rattle.login_state.specs.Requests.{bad_stage, is_of_the_hub, is_to_the_hub, request_at, status, to_the_hub, to_users};

use crate::deny::Deny;
use crate::request::Request;
use adc_line::Kind;

/// The stages through which a connection goes (ADC 1.0, "States").
#[derive(Clone, Copy, Debug, PartialEq, Eq)]
pub enum Stage {
    /// The connection joined, and has not yet said what it supports.
    Protocol,
    /// The connection said what it supports, and has not yet logged in.
    Identify,
    /// The connection logged in with the nick of an account, and has yet to give the password.
    Verify,
    /// The connection entered: its user is present.
    Normal,
    /// The connection was shut out; it keeps its place and its outbox until it quits.
    Gone,
}

impl Stage {
    /// Tells what a line of this type with this command, the three characters of its name, asks for at this stage, or why it is
    /// denied (ADC 1.0, "Message types", "States", "Actions"). Takes no memory.
    ///
    /// 140: a line of type C, I or U, whatever its command. 144: before a user is present, all but what leads to the next stage,
    /// which is HSUP at `Protocol`, BINF at `Identify` and HPAS at `Verify`, and HSTA, which leads to nothing; at `Normal` HPAS;
    /// at `Gone` everything. 140 at `Normal`: the hub's own commands, SID, QUI, GPA and CMD, in every type; SUP and PAS, which go
    /// to the hub, in other types than H; INF, which goes to all, in other types than B.
    #[tactic(auto, unfolding(crate::specs::Requests::request_at))]
    pub fn request(self, kind: Kind, command: [u8; 3]) -> Result<Request, Deny>
        ensures { result ≡ request_at self kind command }
    {
        match (self, kind) {
            (_, Kind::Client | Kind::Info | Kind::Udp) => Err(Deny::Protocol),
            (Stage::Protocol, Kind::Hub) if command == *b"SUP" => Ok(Request::Greeting),
            (Stage::Verify, Kind::Hub) if command == *b"PAS" => Ok(Request::Password),
            (Stage::Protocol | Stage::Identify | Stage::Verify, Kind::Hub) => status(command),
            (Stage::Identify, Kind::Broadcast) if command == *b"INF" => Ok(Request::Login),
            (Stage::Normal, Kind::Hub) => to_the_hub(command),
            (Stage::Normal, Kind::Broadcast) if command == *b"INF" => Ok(Request::Update),
            (Stage::Normal, _) if command == *b"INF" => Err(Deny::Protocol),
            (Stage::Normal, _) => to_users(command),
            _ => bad_stage(kind, command),
        }
    }
}

/// Denies a line at this stage, by its first word.
fn bad_stage(kind: Kind, command: [u8; 3]) -> Result<Request, Deny>
    ensures { result ≡ bad_stage kind command }
{
    let [a, b, c] = command;
    Err(Deny::BadStage([kind.letter(), a, b, c]))
}

/// Takes a status, and denies all else.
fn status(command: [u8; 3]) -> Result<Request, Deny>
    ensures { result ≡ status command }
{
    if command == *b"STA" {
        Ok(Request::Nothing)
    } else {
        bad_stage(Kind::Hub, command)
    }
}

fn to_users(command: [u8; 3]) -> Result<Request, Deny>
    ensures { result ≡ to_users command }
{
    if is_of_the_hub(command) || is_to_the_hub(command) {
        Err(Deny::Protocol)
    } else if command == *b"SCH" {
        Ok(Request::Search)
    } else {
        Ok(Request::Message)
    }
}

fn to_the_hub(command: [u8; 3]) -> Result<Request, Deny>
    ensures { result ≡ to_the_hub command }
{
    if is_of_the_hub(command) || command == *b"INF" {
        Err(Deny::Protocol)
    } else if command == *b"PAS" {
        bad_stage(Kind::Hub, command)
    } else if command == *b"SUP" {
        Ok(Request::Support)
    } else if command == *b"MSG" {
        Ok(Request::Act)
    } else {
        Ok(Request::Nothing)
    }
}

fn is_of_the_hub(command: [u8; 3]) -> bool
    ensures { result ≡ is_of_the_hub command }
{
    command == *b"SID" || command == *b"QUI" || command == *b"GPA" || command == *b"CMD"
}

fn is_to_the_hub(command: [u8; 3]) -> bool
    ensures { result ≡ is_to_the_hub command }
{
    command == *b"SUP" || command == *b"PAS"
}
