use crate::rows::*;
use adc_line::{
    FrameFault, Framer, Line, LineFault, Next, UnescapeFault, escape, is_feature_name,
    is_feature_word, unescape,
};

/// Lines and their words.
#[derive(Drop)]
pub(crate) struct Lines;

impl Part for Lines {
    fn call(&mut self, rt: &impl Machine, row: Row<'_>, said: &mut Vec<u8>) {
        match row.name {
            "read" => match parse_line(rt, row.bytes) {
                Ok(line) => say_line(rt, said, &line, row.text),
                Err(fault) => say_shown(rt, said, &fault),
            },
            "escape" => say_escape(rt, row.text, said),
            "unescape" => say_unescape(rt, row.text, said),
            "name" => say_whether(rt, said, is_feature_name(row.bytes)),
            "word" => say_whether(rt, said, is_feature_word(row.bytes)),
            _ => unknown(rt, row.name),
        }
    }
}

fn parse_line(rt: &impl Machine, bytes: &[u8]) -> Result<Line, LineFault> {
    twice!(rt; "adc_line::Line::parse", LineFault::Memory, Line::parse(rt.alloc(), bytes))
}

/// Reads a line that is one.
pub(crate) fn line(rt: &impl Machine, bytes: &[u8]) -> Line {
    parse_line(rt, bytes).expect(rt, "a line")
}

/// Says the kind, command, sender, target and features of a line, `-` for each that it has not, and `;` before each parameter.
fn say_line(rt: &impl Machine, said: &mut Vec<u8>, line: &Line, text: &str) {
    assert!(rt; line.text() == text, "{text}");
    say_shown(rt, said, &line.kind());
    say(rt, said, " ");
    say_bytes(rt, said, &line.command());
    for sid in [line.from(), line.target()] {
        match sid {
            Some(sid) => {
                say(rt, said, " ");
                say_bytes(rt, said, &sid.text());
            }
            None => say(rt, said, " -"),
        }
    }
    say_next(rt, said, line.features().unwrap_or("-"));
    for word in line.params() {
        say(rt, said, ";");
        say(rt, said, word);
    }
}

fn say_escape(rt: &impl Machine, text: &str, said: &mut Vec<u8>) {
    let word = got!(rt; "adc_line::escape", AllocError, escape(rt.alloc(), text));
    say(rt, said, &word);
}

fn say_unescape(rt: &impl Machine, word: &str, said: &mut Vec<u8>) {
    match twice!(rt; "adc_line::unescape", UnescapeFault::Memory, unescape(rt.alloc(), word)) {
        Ok(text) => say(rt, said, &text),
        Err(fault) => say_shown(rt, said, &fault),
    }
}

/// A stream that is cut into lines, and the line that was cut off last, which stays where memory is refused or no line follows.
#[derive(Drop)]
pub(crate) struct Frames {
    framer: Framer,
    line: Vec<u8>,
}

impl Part for Frames {
    fn call(&mut self, rt: &impl Machine, row: Row<'_>, said: &mut Vec<u8>) {
        match row.name {
            "feed" => self.feed(rt, row.bytes),
            "next" => self.next(rt, said),
            "pieces" => pieces(rt, row.bytes, said),
            _ => unknown(rt, row.name),
        }
    }
}

impl Frames {
    fn feed(&mut self, rt: &impl Machine, piece: &[u8]) {
        got!(rt; "adc_line::Framer::feed", FrameFault::Memory, self.framer.feed(piece));
    }

    fn next(&mut self, rt: &impl Machine, said: &mut Vec<u8>) {
        let before = again!(rt; self.line.clone());
        match twice!(rt; "adc_line::Framer::next", FrameFault::Memory,
            self.line == before, self.framer.next(&mut self.line))
        {
            Ok(Next::Line) => {
                say(rt, said, "line ");
                return say_bytes(rt, said, &self.line);
            }
            Ok(Next::More) => say(rt, said, "more"),
            Ok(Next::TooLong) => say(rt, said, "too long"),
            Err(_) => say(rt, said, "fault"),
        }
        assert!(rt; self.line == before, "no line, and it changed");
    }

    fn lines(&mut self, rt: &impl Machine, said: &mut Vec<u8>) {
        for _ in 0..4 {
            let mut next = Vec::new(rt.alloc());
            self.next(rt, &mut next);
            if next.as_slice() == b"more".as_slice() {
                return;
            }
            say_bytes(rt, said, &next);
            say(rt, said, ", ");
        }
    }
}

/// Feeds pieces of each of some sizes of the stream, and takes all lines after each piece.
fn pieces(rt: &impl Machine, stream: &[u8], said: &mut Vec<u8>) {
    for size in [1, 2, 7, 19, 20, 64] {
        let mut frames = new_frames(rt);
        for piece in stream.chunks(size) {
            frames.feed(rt, piece);
            frames.lines(rt, said);
        }
        say(rt, said, "; ");
    }
}

pub(crate) fn new_frames(rt: &impl AllocGlobal) -> Frames {
    let (framer, line) = (Framer::new(rt.alloc()), Vec::new(rt.alloc()));
    Frames { framer, line }
}

#[test]
fn lines_are_read(rt: HostRuntime) {
    rows! { rt, Lines, r"
        == names the first fault ==
        read <> | <x20> | <x20><x20> | BMSG | BMSG AAA | bMSG AAAB hi | BMSG aaab hi | BMSGX AAAB hi | B1SG AAAB hi | AMSG AAAB hi -> Header
        read BMSG  AAAB hi | UMSG | UMSG AB1 hi | FSCH AAAB ANx | FSCH AAAB +TCP ANx | FSCH AAAB TCP4 ANx | FSCH AAAB +tcp4 ANx -> Header
        read FSCH AAAB +TCP4- ANx | FSCH AAAB | DMSG AAAB | DMSG AAAB hi -> Header
        read BMSG AAAB<x20> | BMSG AAAB  hi | BMSG AAAB h<x0a>i | HSUP  ADBASE | BMSG AAAB a\xb<x20> -> Parameter
        read EMSG AAAB AAAC \ | BMSG AAAB a\xb | BMSG AAAB \\\ -> Escape | BMSG AAAB <xff> | <xff> | BMSG AAAB <xc3> -> NotUtf8
        read BMSG AAAB <65527*a> -> TooLong | BMSG AAAB <65526*a> -> Broadcast MSG AAAB - -;<65526*a>
        == reads each type ==
        read BMSG AAAB -> Broadcast MSG AAAB - - | BMSG AAAB hi\sthere <xc3><xa9> PM<x0d> -> Broadcast MSG AAAB - -;hi\sthere;<xc3><xa9>;PM<x0d>
        read BM1G AAAB x -> Broadcast M1G AAAB - -;x | CSTA 000 ok -> Client STA - - -;000;ok
        read DMSG AAAB AAAC yo -> Direct MSG AAAB AAAC -;yo | EMSG AAAB 7777 \\ -> Echo MSG AAAB 7777 -;\\
        read FSCH AAAB +TCP4-NAT0 ANx TO1 -> Feature SCH AAAB - +TCP4-NAT0;ANx;TO1 | HSUP ADBASE ADTIGR -> Hub SUP - - -;ADBASE;ADTIGR
        read ISID AAAB -> Info SID - - -;AAAB | UMSG ABC hi -> Udp MSG - - -;hi
        == escapes and back ==
        escape <> -> <> | hi -> hi | adc-hub 1.0 -> adc-hub\s1.0 | a<x0a>b -> a\nb | \ -> \\ | <x20><x0a>\ -> \s\n\\ | \s -> \\s
        escape <xc3><xa9> <xf0><x9f><x98><x80> -> <xc3><xa9>\s<xf0><x9f><x98><x80>
        unescape <> -> <> | hi -> hi | adc-hub\s1.0 -> adc-hub 1.0 | a\nb -> a<x0a>b | \\ -> \ | \s\n\\ -> <x20><x0a>\ | \\s -> \s
        unescape <xc3><xa9>\s<xf0><x9f><x98><x80> -> <xc3><xa9> <xf0><x9f><x98><x80> | \ | a\x | \S | a b | a<x0a>b | \\\ -> Escape
        == knows the names of features ==
        name TCP4 | NAT0 | A000 | ZZZZ -> yes | <> | TCP | TCP4X | tcp4 | 0TCP | TCP- | +TCP4 -> no
        word +TCP4 | -NAT0 | +TCP4-NAT0 | +SEGA-SEGA -> yes | <> | TCP4 | +tcp4 | +TCP | +TCP4- | +TCP4,NAT0 -> no
    " }
}

#[test]
fn streams_are_framed(rt: HostRuntime) {
    rows! { rt, new_frames(&rt), "
        == frames however cut ==
        pieces HSUP ADBASE ADTIGR<x0a><x0a>BMSG AAAB hi<x0a>rest -> <6*line HSUP ADBASE ADTIGR, line , line BMSG AAAB hi, ; >
        == frames no line that is too long ==
        feed BMSG AAAB <65526*a> -> <>
        next -> more
        feed <x0a> -> <>
        next -> line BMSG AAAB <65526*a>
        feed BMSG AAAB <65526*a> | a -> <>
        next -> too long
        feed <x0a>HSUP<x0a> -> <>
        next -> too long
    " }
}
