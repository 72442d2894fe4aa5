// The command `check`.
use crate::called::expect_rows;
use std::test::*;

// Of each row: a line of words, a document, the status and what is written. A row ends at `%`.
const ROWS: &str = r#"check
{"version":1,"nodes":[{"name":"src","kind":"queue"},{"name":"pre","kind":"function","policy":"queueing","body":"add","arg":1},{"name":"left","kind":"function","policy":"queueing","body":"mul","arg":3},{"name":"right","kind":"function","policy":"queueing","body":"neg","limit":1},{"name":"both","kind":"join","policy":"key","ports":2},{"name":"out","kind":"sequencer"}],"edges":[{"from":"src","to":"pre"},{"from":"pre","to":"left"},{"from":"pre","to":"right"},{"from":"left","to":"both"},{"from":"right","to":"both","port":1},{"from":"both","to":"out"}],"callers":[[{"put":"src","val":7},{"put":"src","tag":2,"val":"x"}],[{"put":"src","tag":1,"val":1}]],"sinks":["out"]}
0
determinate
sinks 1
out 3
0 [24,-8]
1 [6,-2]
2 ["x","x"]
%check
{"version":1,"nodes":[{"name":"a","kind":"sequencer"},{"name":"b","kind":"sequencer"}],"edges":[{"from":"a","to":"b"}],"callers":[[{"put":"a","tag":1,"val":1},{"put":"a","tag":0,"val":2},{"put":"a","tag":3,"val":3}]],"sinks":["a","b"]}
0
determinate
sinks 2
a 1
3 3
b 2
0 2
1 1
%check
{"version":1,"nodes":[],"edges":[],"callers":[],"sinks":[]}
0
determinate
sinks 0
%check
{"version":1,"nodes":[{"name":"q","kind":"queue"}],"edges":[],"callers":[[{"put":"q","val":5}]],"sinks":["q"]}
0
loose N7 node 0
%check
{"version":1,"nodes":[{"name":"q","kind":"queue"},{"name":"s","kind":"sequencer"}],"edges":[{"from":"q","to":"s"}],"callers":[[{"put":"q","val":5},{"put":"q","val":6}]],"sinks":["s"]}
0
loose N6 node 0
%check
{"version":1,"nodes":[{"name":"s","kind":"sequencer"},{"name":"j","kind":"join","policy":"queueing","ports":2}],"edges":[],"callers":[],"sinks":["s"]}
0
loose N1 node 1
%check
{"version":1,"nodes":[{"name":"q","kind":"queue"},{"name":"f","kind":"function","policy":"queueing","body":"add","arg":1}],"edges":[{"from":"q","to":"f"},{"from":"f","to":"q"}],"callers":[[{"put":"q","val":5}]],"sinks":[]}
0
loose N2 node 0
%check
{"version":1,"nodes":[{"name":"q","kind":"queue"},{"name":"s","kind":"sequencer"},{"name":"t","kind":"sequencer"}],"edges":[{"from":"q","to":"s"},{"from":"q","to":"t"}],"callers":[],"sinks":["s"]}
0
loose N3 node 0
%check
{"version":1,"nodes":[{"name":"f","kind":"function","policy":"queueing","body":"split_even"},{"name":"s","kind":"sequencer"}],"edges":[{"from":"f","to":"s"}],"callers":[],"sinks":["s"]}
0
loose N5 node 0
%check
{
5
error 5 syntax
%check
[]
6
error 6 . object
%check --journal

1
error 1 words
%check check

1
error 1 words
"#;

#[test]
fn documents_are_checked(rt: HostRuntime) {
    expect_rows(&rt, ROWS);
}
