//! The longer texts of the help.

/// What each exit status means.
pub(crate) const STATUSES: &str = "Statuses:
  0  done
  1  the arguments, the settings, the password or a file is at fault
  2  there are no tables of Tiger
  3  the address cannot be reached, or no hub could listen at it
  4  memory ran out
  5  the connection failed, or this is no ADC hub; input or output failed
  6  wrong password
  7  banned
  8  refused by the hub, as the line says
  9  no answer in time";

pub(crate) const CHECK: &str =
    "Tells what a hub would read in a settings file: its first fault, or a summary and warnings of the menu

Examples:
  adc_hubctl check hub.toml
  adc_hubctl check /etc/adc-hub/hub.toml --listen";

pub(crate) const KICK: &str = "Sends a user away, who may come back at once

Examples:
  adc_hubctl kick 127.0.0.1:4111 bob --nick op
  adc_hubctl kick 127.0.0.1:4111 bob \"be kind\" --nick op --password-file op.txt";

pub(crate) const BAN: &str =
    "Sends a user away and keeps its client out; prints the command that takes this back

Examples:
  adc_hubctl ban 127.0.0.1:4111 bob 3600 \"until you calm down\" --nick op
  adc_hubctl ban 127.0.0.1:4111 bob 0 --nick op --password-file op.txt";

pub(crate) const UNBAN: &str = "Takes a ban back

Examples:
  adc_hubctl unban 127.0.0.1:4111 MFXGCAAAAAAAAAAAAAAAAAAAAAAAAAAAAAAAAAA --nick op
  adc_hubctl unban 127.0.0.1:4111 MFXGCAAAAAAAAAAAAAAAAAAAAAAAAAAAAAAAAAA --nick op --password-file op.txt";

pub(crate) const TOPIC: &str =
    "Shows the topic, for which nobody has to log in; sets it; or takes it away

Examples:
  adc_hubctl topic 127.0.0.1:4111
  adc_hubctl topic 127.0.0.1:4111 \"Films of the week\" --nick op
  adc_hubctl topic 127.0.0.1:4111 --clear --nick op --password-file op.txt";

pub(crate) const WHO: &str =
    "Lists who is present, but for the tool itself: nick, role, client identifier, address, shared bytes, description

Examples:
  adc_hubctl who 127.0.0.1:4111 --nick guest
  adc_hubctl who 127.0.0.1:4111 --json --nick op --password-file op.txt";

pub(crate) const SAY: &str = "Says something to all

Examples:
  adc_hubctl say 127.0.0.1:4111 \"The hub restarts at nine\" --nick op
  adc_hubctl say 127.0.0.1:4111 hello --nick op --password-file op.txt";

pub(crate) const PING: &str = "Tells what a hub says of itself, for which nobody has to log in

Examples:
  adc_hubctl ping hub.example:4111
  adc_hubctl ping 127.0.0.1:4111 --prometheus --seconds 2";

pub(crate) const WHO_JSON: &str =
    "Print a list of JSON with an object for each user: nick, role (hub, owner, superuser, operator, registered, bot, user), \
cid, address (a text, which may be empty), share (a number, or a text if the client says none), description";

pub(crate) const PING_JSON: &str =
    "Print an object of JSON: name, description (the topic), version; users, share (bytes), files, max_users, uptime \
(seconds) are numbers. What the hub does not tell is left out";
