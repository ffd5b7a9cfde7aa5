//! Reads that want memory.
use super::{HEADER, HeldFiles, Screen};
use program::run;

#[test]
fn a_read_that_wants_memory(rt: HostRuntime) {
    let mut source = HeldFiles {
        module: &HEADER,
        calls: &[],
        has_memory: false,
    };
    let asked: [&[&str]; 5] = [
        &["check-all", "x.wasm", "x.wasm"],
        &["check-all", "-"],
        &["stream", "x.wasm", "x.calls"],
        &["check", "x.wasm", "--workers", "64", "--piece", "65535"],
        &["run", "x.wasm", "x.calls", "--fuel", "0", "--pages", "0"],
    ];
    for words in asked {
        let (mut out, mut err) = (Screen::wide(rt.alloc()), Screen::wide(rt.alloc()));
        let status = run(&rt, rt.alloc(), words, &mut source, &mut out, &mut err);
        assert_eq!(rt; status, 70);
        assert!(rt; out.shown.is_empty());
        assert_eq!(rt; err.shown.as_slice(), b"gate: no memory\n".as_slice());
    }
}
