use crate::logs::play_log;
use crate::rows::rows;

#[test]
fn members(rt: HostRuntime) {
    rows! { play_log(rt) "
        room 8 1000 -> <>
        joins -> 0 | -> 0 0
        enters 0 | 1 -> 0 0
        tells a;b -> 2 2 | c;d -> 4 4
        gives 0 x -> 5 4
        takes 0 1 -> 1;a<x0a> | 1 256 -> 4;a<x0a>b<x0a>c<x0a>d<x0a>
        tells e -> 5 1 | f -> 6 2 | g -> 7 3
        takes 0 256 -> 7;b<x0a>c<x0a>d<x0a>x<x0a>e<x0a>f<x0a>g<x0a>
        quits 0 1 -> 4
    " }
}
