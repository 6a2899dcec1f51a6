ghost use Rattle.std.specs.Prelude.{◌≡◌, ◌&&◌, Some};
ghost use Rattle.std.specs.List.{list_all};
ghost use Rattle.std.specs.Option.{option_and_then};
ghost use Rattle.adc_base32.specs.Spelled.{is_digit};
ghost use Rattle.adc_line.specs.Header.{is_letter, is_letter_or_digit, addressed_as, head_at, is_cid, header_at, header_words, kind_at, letter};
ghost use Rattle.adc_line.specs.Words.{words};

use crate::feature_word::is_feature_word;
use crate::words::Words;
use adc_base32::Sid;

/// The type of a message: whom it is for (ADC 1.0, "Message types").
#[derive(Clone, Copy, Debug, PartialEq, Eq)]
pub enum Kind {
    /// B: to all users.
    Broadcast,
    /// C: from client to client.
    Client,
    /// D: to one user.
    Direct,
    /// E: to one user and back to the sender.
    Echo,
    /// F: to the users who have certain features.
    Feature,
    /// H: to the hub.
    Hub,
    /// I: from the hub.
    Info,
    /// U: from client to client over UDP.
    Udp,
}

impl Kind {
    /// Gives the type with this letter.
    #[tactic(auto, unfolding(crate::specs::Header::kind_at))]
    pub(crate) fn of(letter: u8) -> Option<Kind>
        ensures { result ≡ kind_at letter }
    {
        match letter {
            b'B' => Some(Kind::Broadcast),
            b'C' => Some(Kind::Client),
            b'D' => Some(Kind::Direct),
            b'E' => Some(Kind::Echo),
            b'F' => Some(Kind::Feature),
            b'H' => Some(Kind::Hub),
            b'I' => Some(Kind::Info),
            b'U' => Some(Kind::Udp),
            _ => None,
        }
    }

    /// Gives the letter that a message of this type begins with.
    #[tactic(auto, unfolding(crate::specs::Header::kind_at))]
    pub fn letter(self) -> u8
        ensures exact { result ≡ letter self }
        ensures back { kind_at result ≡ Some self }
    {
        match self {
            Kind::Broadcast => b'B',
            Kind::Client => b'C',
            Kind::Direct => b'D',
            Kind::Echo => b'E',
            Kind::Feature => b'F',
            Kind::Hub => b'H',
            Kind::Info => b'I',
            Kind::Udp => b'U',
        }
    }
}

/// The first word of a line, read.
#[derive(Clone, Copy)]
pub(crate) struct Head {
    pub(crate) kind: Kind,
    pub(crate) command: [u8; 3],
}

impl Head {
    ghost use Rattle.adc_line.specs.Header.{header};

    fn header(self, from: Option<Sid>, target: Option<Sid>) -> Header
        ensures { result ≡ header self from target }
    {
        Header {
            head: self,
            from,
            target,
        }
    }
}

/// The words before the parameters, read.
#[derive(Clone, Copy)]
pub(crate) struct Header {
    pub(crate) head: Head,
    pub(crate) from: Option<Sid>,
    pub(crate) target: Option<Sid>,
}

/// Counts the words that the header of a type has.
pub(crate) fn header_words(kind: Kind) -> usize
    ensures { result ≡ header_words kind }
{
    match kind {
        Kind::Client | Kind::Hub | Kind::Info => 1,
        Kind::Broadcast | Kind::Udp => 2,
        Kind::Direct | Kind::Echo | Kind::Feature => 3,
    }
}

/// Reads the header with which a text begins.
#[tactic(auto, unfolding(crate::specs::Header::header_at))]
pub(crate) fn header_at(text: &str) -> Option<Header>
    ensures { result ≡ header_at (words text.now) }
{
    let mut words = Words::of(text);
    let first = words.next_or_empty();
    let second = words.next_or_empty();
    let third = words.next_or_empty();
    header_of(first.as_bytes(), second.as_bytes(), third.as_bytes())
}

fn header_of(first: &[u8], second: &[u8], third: &[u8]) -> Option<Header>
    ensures { result ≡ option_and_then (λ (head : Head). addressed_as head.kind head second.now third.now) (head_at first.now) }
{
    let head = head_at(first)?;
    with_addresses(head, second, third)
}

#[tactic(auto, unfolding(crate::specs::Header::head_at))]
fn head_at(word: &[u8]) -> Option<Head>
    ensures { result ≡ head_at word.now }
{
    let [letter, a, b, c] = word else {
        return None;
    };
    if !is_letter(*a) || !is_letter_or_digit(*b) || !is_letter_or_digit(*c) {
        return None;
    }
    let kind = Kind::of(*letter)?;
    Some(Head {
        kind,
        command: [*a, *b, *c],
    })
}

fn with_addresses(head: Head, second: &[u8], third: &[u8]) -> Option<Header>
    ensures { result ≡ addressed_as head.kind head second.now third.now }
{
    match head.kind {
        Kind::Client | Kind::Hub | Kind::Info => Some(head.header(None, None)),
        Kind::Broadcast => {
            let own = Sid::parse(second)?;
            Some(head.header(Some(own), None))
        }
        Kind::Direct | Kind::Echo => {
            let own = Sid::parse(second)?;
            let target = Sid::parse(third)?;
            Some(head.header(Some(own), Some(target)))
        }
        Kind::Feature => {
            let own = Sid::parse(second)?;
            if !is_feature_word(third) {
                return None;
            }
            Some(head.header(Some(own), None))
        }
        Kind::Udp => {
            if !is_cid(second) {
                return None;
            }
            Some(head.header(None, None))
        }
    }
}

/// Tests whether a byte is a letter A to Z.
pub(crate) fn is_letter(byte: u8) -> bool
    ensures { result ≡ is_letter byte }
{
    matches!(byte, b'A'..=b'Z')
}

/// Tests whether a byte is a letter A to Z or a digit.
pub(crate) fn is_letter_or_digit(byte: u8) -> bool
    ensures { result ≡ is_letter_or_digit byte }
{
    matches!(byte, b'A'..=b'Z' | b'0'..=b'9')
}

#[tactic(auto, unfolding(adc_base32::specs::Digits::value_at))]
fn is_base32_digit(byte: u8) -> bool
    ensures { result ≡ is_digit byte }
{
    matches!(byte, b'A'..=b'Z' | b'2'..=b'7')
}

fn are_base32_digits(word: &[u8]) -> bool
    ensures { result ≡ list_all is_digit word.now }
{
    word.iter().all(|c| is_base32_digit(*c))
}

/// Tests whether a word is one or more base32 digits.
#[tactic(auto, unfolding(crate::specs::Header::is_cid))]
fn is_cid(word: &[u8]) -> bool
    ensures { result ≡ is_cid word.now }
{
    !word.is_empty() && are_base32_digits(word)
}
