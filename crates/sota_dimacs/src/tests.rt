// Examples from outside the definitions.
use crate::{GraphFault, RawArc, read_graph};
use sota_units::{Items, NodeId};
use std::test::Fail;

#[test]
fn graph_texts(rt: HostRuntime) -> Result<(), Fail> {
    let triangle = [
        "p sp 3 3\na 1 2 1\na 2 3 1\na 1 3 3\n",
        "p sp 3 3\r\n\r\na\t1 2\t1\r\n \t\r\na 2  3 1\r\n\na 1 3 3\r\n",
        "c a comment\nc\nca 1 2\n\tp\tsp 03 3 \na 1 2 1\nc p sp 1 1\na 2 3 1\na 1 3 0003",
    ];
    let arcs = [
        RawArc {
            tail: NodeId(1),
            head: NodeId(2),
            weight: 1,
        },
        RawArc {
            tail: NodeId(2),
            head: NodeId(3),
            weight: 1,
        },
        RawArc {
            tail: NodeId(1),
            head: NodeId(3),
            weight: 3,
        },
    ];
    for text in triangle {
        let bytes = text.as_bytes();
        assert!(rt; bytes.len() < 1000);
        let graph = read_graph(rt.alloc(), bytes)?;
        assert_eq!(rt; graph.nodes, 3);
        assert_eq!(rt; graph.arcs.as_slice(), arcs.as_slice());
    }
    let loops = read_graph(rt.alloc(), b"cx\np sp 1 2\na 1 1 0\na 1 1 4294967295")?;
    let arcs = Items::new(loops.arcs.into_vec());
    assert_eq!(rt; arcs.as_slice().len(), 2);
    let faults = [
        ("", GraphFault::NoProblem),
        ("c\n\n", GraphFault::NoProblem),
        ("p sp 4294967296 1", GraphFault::BadLine(1)),
        ("p sp 1000001 0", GraphFault::TooManyNodes(1_000_001)),
        ("p sp 1 4000001", GraphFault::ArcLimit(4_000_001)),
        (
            "p sp 1000001 4000001\nx",
            GraphFault::TooManyNodes(1_000_001),
        ),
        ("a 1 1 1", GraphFault::ArcBeforeProblem(1)),
        ("\na", GraphFault::ArcBeforeProblem(2)),
        ("p sp 1 0\np sp 1 0", GraphFault::SecondProblem(2)),
        ("p sp 1 0\n\np", GraphFault::SecondProblem(3)),
        ("p sp 2 1\na 1 3 1", GraphFault::NodeRange(2)),
        ("p sp 2 0\na 0 2 1", GraphFault::NodeRange(2)),
        ("p sp 2 1\na 3 1 x", GraphFault::BadLine(2)),
        ("p sp 2 1\na 1 2 1 1", GraphFault::BadLine(2)),
        ("p sp 2 1\r\r\na 1 2 1", GraphFault::BadLine(1)),
        ("p sp 0 0", GraphFault::BadLine(1)),
        ("p edge 1 0", GraphFault::BadLine(1)),
        ("p sp 1", GraphFault::BadLine(1)),
        ("p sp 1 0\n\nd", GraphFault::BadLine(3)),
        ("ap sp 1 0", GraphFault::BadLine(1)),
        (
            "p sp 3 2\na 1 2 1\na 2 3 1\na 1 3 3\n",
            GraphFault::TooManyArcs(4),
        ),
        ("p sp 3 3\na 1 2 1\n", GraphFault::TooFewArcs(1)),
    ];
    for (text, want) in faults {
        let bytes = text.as_bytes();
        assert!(rt; bytes.len() < 1000);
        match read_graph(rt.alloc(), bytes) {
            Ok(_) => assert!(rt; false, "{text}"),
            Err(fault) => assert_eq!(rt; fault, want, "{text}"),
        }
    }
    Ok(())
}
