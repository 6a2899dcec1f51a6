//! A client's conversation with a hub: its messages, and the meaning of the hub's answers, over any reader and writer.
#![tactic(auto)]

mod address;
mod cid_text;
mod client;
mod departures;
mod fault;
mod fields;
mod lines;
mod login;
mod nick_text;
mod operator_line;
mod request;
mod role;
mod status;
mod turns;
mod user;

pub use address::{AddressFault, HubAddress};
pub use cid_text::CidText;
pub use client::{Client, LoginStep, Welcome};
pub use fault::ClientFault;
pub use fields::{field, field_text};
pub use login::{ClientIdentity, chat_line, login_line, password_line, support_line};
pub use nick_text::NickText;
pub use operator_line::act_line;
pub use request::HubRequest;
pub use role::Role;
pub use status::{LoginRefusal, Status};
pub use user::{HubUser, Who};
