// Documents with functions.
use crate::called::{
    Left, ends_with_code, expect_rows, is, keeps_document, keeps_events, keeps_refused, plain,
    sink, source,
};
use flow_item::Event;
use std::process::Abort;
use std::test::*;

// Of each row: a line of words, a document, the status and what is written. A row ends at `%`.
const REPORTS: &str = r#"plain
{"version":1,"nodes":[{"name":"f","kind":"function","policy":"queueing","limit":1,"body":"add","arg":1},{"name":"s","kind":"queue"}],"edges":[{"from":"f","to":"s"}],"callers":[[{"put":"f","val":5}]],"sinks":["s"]}
0
sinks 1
s 1
0 6
tally 2
f in 2 out 1 eaten 1 lost 0 over 0 kept 0
s in 1 out 0 eaten 0 lost 0 over 0 kept 1
events 8 items 3 refused 0 status 0
%plain --journal
{"version":1,"nodes":[{"name":"f","kind":"function","policy":"queueing","limit":1,"body":"add","arg":1},{"name":"s","kind":"queue"}],"edges":[{"from":"f","to":"s"}],"callers":[[{"put":"f","val":5}]],"sinks":["s"]}
0
sinks 1
s 1
0 6
tally 2
f in 2 out 1 eaten 1 lost 0 over 0 kept 0
s in 1 out 0 eaten 0 lost 0 over 0 kept 1
journal 8
put 0 0 0 0 accepted 0 kept 5
leave 0
start 0 0 0
end 0 0 0 1 [[0,0,6]]
give 0 0 1 0 1 0 kept 0 6
shut 0 1 out
idle 0
idle 1
events 8 items 3 refused 0 status 0
%plain --items 10
{"version":1,"nodes":[{"name":"q","kind":"queue"},{"name":"f","kind":"function","policy":"queueing","limit":1,"body":"add","arg":1}],"edges":[{"from":"q","to":"f"},{"from":"f","to":"q"}],"callers":[[{"put":"q","val":0}]],"sinks":["q"]}
8
sinks 1
q 1
0 3
tally 2
q in 4 out 3 eaten 0 lost 0 over 0 kept 1
f in 6 out 2 eaten 3 lost 0 over 0 kept 1
stopped give 0 0 1 0 3 6 kept 0 3
events 19 items 10 refused 0 status 8
%plain --items 10 --journal
{"version":1,"nodes":[{"name":"q","kind":"queue"},{"name":"f","kind":"function","policy":"queueing","limit":1,"body":"add","arg":1}],"edges":[{"from":"q","to":"f"},{"from":"f","to":"q"}],"callers":[[{"put":"q","val":0}]],"sinks":["q"]}
8
sinks 1
q 1
0 3
tally 2
q in 4 out 3 eaten 0 lost 0 over 0 kept 1
f in 6 out 2 eaten 3 lost 0 over 0 kept 1
journal 19
put 0 0 0 0 accepted 0 kept 0
leave 0
give 0 0 1 0 0 0 kept 0 0
idle 0
start 0 1 0
end 0 1 0 1 [[0,0,1]]
give 1 1 0 0 1 1 kept 0 1
give 0 0 1 0 1 2 kept 0 1
idle 0
shut 1 1 out
start 0 1 2
end 0 1 2 3 [[0,0,2]]
give 1 1 0 0 3 2 kept 0 2
give 0 0 1 0 2 4 kept 0 2
idle 0
shut 1 3 out
start 0 1 4
end 0 1 4 5 [[0,0,3]]
give 1 1 0 0 5 3 kept 0 3
stopped give 0 0 1 0 3 6 kept 0 3
events 19 items 10 refused 0 status 8
%plain --journal
{"version":1,"nodes":[{"name":"a","kind":"queue"},{"name":"f","kind":"function","policy":"queueing","body":"add","limit":1,"arg":1},{"name":"g","kind":"function","policy":"queueing","body":"mul","arg":3},{"name":"h","kind":"function","policy":"queueing","body":"neg","limit":2},{"name":"s","kind":"queue"}],"edges":[{"from":"a","to":"f"},{"from":"f","to":"g"},{"from":"g","to":"h"},{"from":"h","to":"s"}],"callers":[[{"put":"a","val":5},{"put":"a","tag":1,"val":9223372036854775807}]],"sinks":["s"]}
0
sinks 1
s 2
0 -18
1 -9223372036854775808
tally 5
a in 2 out 2 eaten 0 lost 0 over 0 kept 0
f in 4 out 2 eaten 2 lost 0 over 0 kept 0
g in 4 out 2 eaten 2 lost 0 over 0 kept 0
h in 4 out 2 eaten 2 lost 0 over 0 kept 0
s in 2 out 0 eaten 0 lost 0 over 0 kept 2
journal 34
put 0 0 0 0 accepted 0 kept 5
put 0 0 0 1 accepted 1 kept 9223372036854775807
leave 0
give 0 0 1 0 0 0 kept 0 5
give 0 0 1 0 1 1 kept 1 9223372036854775807
idle 0
start 0 1 0
end 0 1 0 2 [[0,0,6]]
give 1 1 2 0 2 0 kept 0 6
shut 1 2 out
start 0 1 1
end 0 1 1 3 [[0,1,-9223372036854775808]]
give 1 1 2 0 3 1 kept 1 -9223372036854775808
shut 1 3 out
idle 1
start 0 2 0
end 0 2 0 2 [[0,0,18]]
give 2 2 3 0 2 0 kept 0 18
shut 2 2 out
start 0 2 1
end 0 2 1 3 [[0,1,-9223372036854775808]]
give 2 2 3 0 3 1 kept 1 -9223372036854775808
shut 2 3 out
idle 2
start 0 3 0
end 0 3 0 2 [[0,0,-18]]
give 3 3 4 0 2 0 kept 0 -18
shut 3 2 out
start 0 3 1
end 0 3 1 3 [[0,1,-9223372036854775808]]
give 3 3 4 0 3 1 kept 1 -9223372036854775808
shut 3 3 out
idle 3
idle 4
events 34 items 16 refused 0 status 0
%plain --journal
{"version":1,"nodes":[{"name":"f","kind":"function","policy":"queueing","body":"split_even","limit":1},{"name":"s","kind":"queue"}],"edges":[{"from":"f","to":"s"}],"callers":[[{"put":"f","val":4},{"put":"f","val":5},{"put":"f","val":"t"}]],"sinks":["s"]}
0
sinks 1
s 1
0 4
tally 2
f in 5 out 1 eaten 3 lost 1 over 0 kept 0
s in 1 out 0 eaten 0 lost 0 over 0 kept 1
journal 15
put 0 0 0 0 accepted 0 kept 4
put 0 0 0 0 accepted 1 kept 5
put 0 0 0 0 accepted 2 kept "t"
leave 0
start 0 0 0
end 0 0 0 3 [[0,0,4]]
give 0 0 1 0 3 0 kept 0 4
shut 0 3 out
start 0 0 1
end 0 0 1 4 [[1,0,5]]
shut 0 4 lost
start 0 0 2
end 0 0 2 5 []
idle 0
idle 1
events 15 items 6 refused 0 status 0
%plain
{"version":1,"nodes":[{"name":"f","kind":"function","policy":"queueing","body":"count_to","arg":2},{"name":"g","kind":"function","policy":"queueing","body":"pair","arg":["x"]},{"name":"s","kind":"queue"}],"edges":[{"from":"f","to":"g"},{"from":"g","to":"s"}],"callers":[[{"put":"f","val":1},{"put":"f","val":2}],[{"put":"f","tag":7,"val":-1},{"wait":true},{"put":"f","val":0}]],"sinks":["s","s"]}
0
sinks 2
s 3
0 [1,["x"]]
7 [-1,["x"]]
0 [0,["x"]]
s 3
0 [1,["x"]]
7 [-1,["x"]]
0 [0,["x"]]
tally 3
f in 7 out 3 eaten 4 lost 0 over 0 kept 0
g in 6 out 3 eaten 3 lost 0 over 0 kept 0
s in 3 out 0 eaten 0 lost 0 over 0 kept 3
events 38 items 16 refused 0 status 0
%plain --items 3
{"version":1,"nodes":[{"name":"f","kind":"function","policy":"queueing","body":"len","limit":1},{"name":"s","kind":"queue"}],"edges":[{"from":"f","to":"s"}],"callers":[[{"put":"f","val":"é"},{"put":"f","val":[1,2,3]}]],"sinks":["s"]}
8
sinks 1
s 0
tally 2
f in 3 out 0 eaten 1 lost 0 over 0 kept 2
s in 0 out 0 eaten 0 lost 0 over 0 kept 0
stopped give 0 0 1 0 2 0 kept 0 2
events 5 items 3 refused 0 status 8
%plain
{"version":1,"nodes":[{"name":"f","kind":"function","policy":"queueing","body":"part","arg":1}],"edges":[],"callers":[[{"put":"f","val":[1,2]}]],"sinks":[]}
0
sinks 0
tally 1
f in 2 out 0 eaten 1 lost 1 over 0 kept 0
events 6 items 2 refused 0 status 0
"#;

// Words that documents may not use, and a body that finds no memory.
const REFUSED: &str = r#"plain
{"version":1,"nodes":[{"name":"f","kind":"function","policy":"queueing","body":"fail_memory"}],"edges":[],"callers":[[{"put":"f","val":5}]],"sinks":[]}
9
error 9 memory
%plain
{"version":1,"nodes":[{"name":"f","kind":"function","policy":"queueing","body":"adds","limit":1},{"name":"s","kind":"queue"}],"edges":[{"from":"f","to":"s"}],"callers":[[{"put":"f","val":4},{"put":"f","val":5},{"put":"f","val":"t"}]],"sinks":["s"]}
6
error 6 nodes/0/body body
%plain
{"version":1,"nodes":[{"name":"f","kind":"function","policy":"rejecting","body":"split_even","limit":1},{"name":"s","kind":"queue"}],"edges":[{"from":"f","to":"s"}],"callers":[[{"put":"f","val":4},{"put":"f","val":5},{"put":"f","val":"t"}]],"sinks":["s"]}
6
error 6 nodes/0/policy policy
%plain
{"version":1,"nodes":[{"name":"f","kind":"function","policy":"lazy","body":"split_even","limit":1},{"name":"s","kind":"queue"}],"edges":[{"from":"f","to":"s"}],"callers":[[{"put":"f","val":4},{"put":"f","val":5},{"put":"f","val":"t"}]],"sinks":["s"]}
6
error 6 nodes/0/policy policy
%plain
{"version":1,"nodes":[{"name":"f","kind":"function","policy":"queueing","body":"split_even","limit":0},{"name":"s","kind":"queue"}],"edges":[{"from":"f","to":"s"}],"callers":[[{"put":"f","val":4},{"put":"f","val":5},{"put":"f","val":"t"}]],"sinks":["s"]}
7
error 7 G4 node 0
%plain
{"version":1,"nodes":[{"name":"f","kind":"function","policy":"queueing","body":"split_even","limit":"1"},{"name":"s","kind":"queue"}],"edges":[{"from":"f","to":"s"}],"callers":[[{"put":"f","val":4},{"put":"f","val":5},{"put":"f","val":"t"}]],"sinks":["s"]}
6
error 6 nodes/0/limit whole
%plain
{"version":1,"nodes":[{"name":"f","kind":"function","policy":"queueing","body":"split_even","limit":1,"arg":true},{"name":"s","kind":"queue"}],"edges":[{"from":"f","to":"s"}],"callers":[[{"put":"f","val":4},{"put":"f","val":5},{"put":"f","val":"t"}]],"sinks":["s"]}
6
error 6 nodes/0/arg value
%plain
{"version":1,"nodes":[{"name":"f","kind":"function","policy":"queueing","body":"split_even","limit":1,"outs":1},{"name":"s","kind":"queue"}],"edges":[{"from":"f","to":"s"}],"callers":[[{"put":"f","val":4},{"put":"f","val":5},{"put":"f","val":"t"}]],"sinks":["s"]}
6
error 6 nodes/0/outs known
%plain
{"version":1,"nodes":[{"name":"f","kind":"function","policy":"queueing","body":1,"limit":1},{"name":"s","kind":"queue"}],"edges":[{"from":"f","to":"s"}],"callers":[[{"put":"f","val":4},{"put":"f","val":5},{"put":"f","val":"t"}]],"sinks":["s"]}
6
error 6 nodes/0/body body
%plain
{"version":1,"nodes":[{"name":"f","kind":"multifunction","policy":"queueing","body":"split_even","limit":1,"outs":1},{"name":"s","kind":"queue"}],"edges":[{"from":"f","to":"s"}],"callers":[[{"put":"f","val":4},{"put":"f","val":5},{"put":"f","val":"t"}]],"sinks":["s"]}
6
error 6 nodes/0/kind kind
%plain
{"version":1,"nodes":[{"name":"f","kind":"async","policy":"queueing","body":"split_even","limit":1},{"name":"s","kind":"queue"}],"edges":[{"from":"f","to":"s"}],"callers":[[{"put":"f","val":4},{"put":"f","val":5},{"put":"f","val":"t"}]],"sinks":["s"]}
6
error 6 nodes/0/kind kind
%plain
{"version":1,"nodes":[{"name":"f","kind":"function","policy":"queueing","body":"split_even","limit":1000001},{"name":"s","kind":"queue"}],"edges":[{"from":"f","to":"s"}],"callers":[[{"put":"f","val":4},{"put":"f","val":5},{"put":"f","val":"t"}]],"sinks":["s"]}
7
error 7 G4 node 0
%plain
{"version":1,"nodes":[{"name":"f","kind":"function","policy":"queueing","limit":1},{"name":"s","kind":"queue"}],"edges":[{"from":"f","to":"s"}],"callers":[[{"put":"f","val":4},{"put":"f","val":5},{"put":"f","val":"t"}]],"sinks":["s"]}
6
error 6 nodes/0/body body
"#;

#[test]
fn documents_with_functions(rt: HostRuntime) {
    expect_rows(&rt, REPORTS);
    expect_rows(&rt, REFUSED);
}

const NO_MEMORY: &str =
    r#"{"version":1,"nodes":[{"name":"f","kind":"function","policy":"queueing","body":"fail_memory"}],"edges":[],"callers":[[{"put":"f","val":5}]],"sinks":[]}"#;

// The last event that is kept is the start of the function's first item.
fn starts_last(rt: &impl Abort, left: &Left) {
    let start = matches!(
        left.kept.journal.get(2),
        Some(Event::Start {
            worker: 0,
            node: 0,
            item: 0
        })
    );
    is(rt, start);
}

#[test]
fn the_journal_of_a_body_without_memory(rt: HostRuntime) {
    let left = plain(&rt, "plain", source(&rt, NO_MEMORY), sink(&rt));
    ends_with_code(&rt, &left, 9, "plain");
    keeps_document(&rt, &left, true);
    keeps_refused(&rt, &left, false);
    keeps_events(&rt, &left, 3);
    starts_last(&rt, &left);
}
