use crate::checks::are_same;
use hub_challenges::Challenges;

/// The first 72 bytes of ChaCha20's stream for a key of zeros: RFC 8439, appendix A.1, vectors 1 and 2.
const STREAM: [&[u8]; 3] = [
    b"\x76\xb8\xe0\xad\xa0\xf1\x3d\x90\x40\x5d\x6a\xe5\
\x53\x86\xbd\x28\xbd\xd2\x19\xb8\xa0\x8d\xed\x1a",
    b"\xa8\x36\xef\xcc\x8b\x77\x0d\xc7\xda\x41\x59\x7c\
\x51\x57\x48\x8d\x77\x24\xe0\x3f\xb8\xd8\x4a\x37",
    b"\x6a\x43\xb8\xf4\x15\x18\xa1\x1c\xc3\x87\xb6\x69\
\xb2\xee\x65\x86\x9f\x07\xe7\xbe\x55\x51\x38\x7a",
];

#[test]
fn deals_the_published_key_stream(rt: HostRuntime) {
    let mut challenges = Challenges::from_seed([0; 32]);
    for wanted in STREAM {
        are_same(&rt, &next(&mut challenges), wanted);
    }
    // A seed with one byte more than zero makes another stream.
    let mut seed = [0; 32];
    seed[31] = 1;
    let mut others = Challenges::from_seed(seed);
    assert!(&rt; next(&mut others).as_slice() != STREAM[0]);
}

fn next(challenges: &mut Challenges) -> [u8; 24] {
    challenges.next()
}
