// Sources whose written certificates are known by hand, and so the types of all their nodes.

use mw_cert::{holds, write_cert};
use mw_infer::check;
use mw_reading::read;
use std::alloc::Global;
use std::process::Abort;
use std::test::Fail;

// A source, and its certificate.
const CERTIFICATES: &[(&str, &str)] = &[
    (
        "main : int = run[int] (close .<7>.)",
        "cert1\ntypes 3\nint\nclosed 0\ncode 0 0\nnodes 4\n0\n1 0 0\n2 0\n0\n",
    ),
    // A name that is used at two types.
    (
        "let id x = x ;; main : int = if id true then id 1 else 2",
        "cert1\ntypes 2\nu 0\narrow 0 0\nnodes 2\n1 0\n0\n\
        types 4\nint\nbool\narrow 1 1\narrow 0 0\nnodes 8\n0\n1\n2\n1\n0\n3\n0\n0\n",
    ),
    // A recursive function, whose node has first its own type and then its argument's.
    (
        "let rec f x = if x <= 0 then true else f x ;; main : int = 1",
        "cert1\ntypes 3\nint\nbool\narrow 0 1\nnodes 9\n2 2 0\n1\n1\n0\n0\n1\n1\n2\n0\n\
        types 1\nint\nnodes 1\n0\n",
    ),
    // Each use of a name has a type of its own; bracket and `lift` make code under the classifier of the `close`.
    (
        "let id x = x ;; kernel k : int = close (if id true then .<1>. else lift (id 2)) ;; main : int = 1",
        "cert1\ntypes 2\nu 0\narrow 0 0\nnodes 2\n1 0\n0\n\
        types 6\nint\nclosed 0\ncode 0 0\nbool\narrow 3 3\narrow 0 0\n\
        nodes 11\n1 0 0\n2\n3\n4\n3\n2 0\n0\n2 0\n0\n5\n0\n\
        types 1\nint\nnodes 1\n0\n",
    ),
];

/// That the written certificate of a source is this text, and that it holds.
fn has_certificate<R: Abort>(
    rt: &R,
    alloc: Global,
    source: &str,
    wanted: &str,
) -> Result<(), Fail> {
    let program = read(alloc, source.as_bytes())?;
    let typed = check(alloc, &program)?;
    let bytes = write_cert(alloc, &program, &typed)?;
    assert_eq!(rt; bytes.as_slice(), wanted.as_bytes(), "{source}");
    assert!(rt; holds(alloc, bytes.as_slice(), &program)?, "{source}");
    Ok(())
}

#[test]
fn certificates_are_those_known_by_hand(rt: HostRuntime) -> Result<(), Fail> {
    for &(source, wanted) in CERTIFICATES {
        has_certificate(&rt, rt.alloc(), source, wanted)?;
    }
    Ok(())
}
