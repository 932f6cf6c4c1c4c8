// Networks of small graphs.
use crate::{HistFileFault, certain_network, read_histograms};
use sota_dimacs::read_graph;
use sota_units::{ArcId, Mass, NodeId, Tick};
use std::test::Fail;

#[test]
fn arcs_take_their_weights(rt: HostRuntime) -> Result<(), Fail> {
    let alloc = rt.alloc();
    let graph = read_graph(alloc, b"p sp 2 2\na 1 2 5\na 1 2 9\n")?;
    let network = certain_network(alloc, graph)?;
    assert_eq!(rt; network.nodes(), 2);
    assert_eq!(rt; network.scale().get(), 1);
    let arc = network.arc(ArcId(2)).ok_or("no second arc")?;
    assert_eq!(rt; arc.tail, NodeId(1));
    assert_eq!(rt; arc.time.pairs(), [(Tick(9), Mass(1))].as_slice());
    let graph = read_graph(alloc, b"p sp 2 2\na 1 2 5\na 1 2 0\n")?;
    let refused = certain_network(alloc, graph).err();
    assert_eq!(rt; refused, Some(HistFileFault::ZeroTime(2)));
    Ok(())
}

const TRIANGLE: &[u8] = b"p sp 3 3\na 1 2 1\na 2 3 1\na 1 3 3\n";

// Records in any order; a mass of 0 is dropped, and the second arc takes its weight.
#[test]
fn records_give_times(rt: HostRuntime) -> Result<(), Fail> {
    let alloc = rt.alloc();
    let graph = read_graph(alloc, TRIANGLE)?;
    let text = b"\xEF\xBB\xBFarc,tick,mass/4\r\n3,5,1\n1,0,0\n1,\"2\",4\n\n3,3,3";
    let network = read_histograms(alloc, text.to_vec(alloc)?, graph)?;
    assert_eq!(rt; network.scale().get(), 4);
    let arc = network.arc(ArcId(3)).ok_or("no third arc")?;
    assert_eq!(rt;
        arc.time.pairs(),
        [(Tick(3), Mass(3)), (Tick(5), Mass(1))].as_slice()
    );
    let arc = network.arc(ArcId(2)).ok_or("no second arc")?;
    assert_eq!(rt; arc.time.pairs(), [(Tick(1), Mass(4))].as_slice());
    Ok(())
}

// What the masses of an arc lack of the scale is lost; an arc whose masses are all 0 takes its
// weight, as does one without records.
#[test]
fn masses_are_lost(rt: HostRuntime) -> Result<(), Fail> {
    let alloc = rt.alloc();
    let graph = read_graph(alloc, TRIANGLE)?;
    let text = b"arc,tick,mass/4\n1,2,1\n1,1,2\n3,5,0";
    let network = read_histograms(alloc, text.to_vec(alloc)?, graph)?;
    let pairs = [
        (1, [(Tick(1), Mass(2)), (Tick(2), Mass(1))].as_slice()),
        (2, [(Tick(1), Mass(4))].as_slice()),
        (3, [(Tick(3), Mass(4))].as_slice()),
    ];
    for (number, pairs) in pairs {
        let arc = network.arc(ArcId(number)).ok_or("no arc")?;
        assert_eq!(rt; arc.time.pairs(), pairs);
    }
    Ok(())
}

#[test]
fn faults_have_words_and_places(rt: HostRuntime) -> Result<(), Fail> {
    let table = [
        (HistFileFault::Header, b"Header".as_slice(), 0),
        (HistFileFault::RepeatedTick(7), b"RepeatedTick", 7),
        (HistFileFault::NoMemory, b"NoMemory", 0),
    ];
    for (fault, word, place) in table {
        assert_eq!(rt; fault.word(), word);
        assert_eq!(rt; fault.place(), place);
    }
    Ok(())
}

// Faulty texts for the triangle of roads.
#[test]
fn first_faults(rt: HostRuntime) -> Result<(), Fail> {
    let faults = [
        (b"".as_slice(), HistFileFault::Header),
        (b"arc,tick,mass/4\n1,2", HistFileFault::Fields(1)),
        (b"arc,tick,mass/4\n1,2,x", HistFileFault::Number(1)),
        (b"arc,tick,mass/4\n1,2,\xFF", HistFileFault::Number(1)),
        (b"arc,tick,mass/4\n9,0,0", HistFileFault::NoArc(1)),
        (b"arc,tick,mass/4\n1,0,1", HistFileFault::ZeroTick(1)),
        (
            b"arc,tick,mass/4\n1,2,1\n1,2,3\nx",
            HistFileFault::RepeatedTick(2),
        ),
        (
            b"arc,tick,mass/4\n3,5,1\n1,2,1\n3,5,1\n1,2,3",
            HistFileFault::RepeatedTick(3),
        ),
        (
            b"arc,tick,mass/4\n1,2,1\nx\n1,2,3",
            HistFileFault::Fields(2),
        ),
        (
            b"\xEF\xBB\xBF\xEF\xBB\xBFarc,tick,mass/4",
            HistFileFault::Header,
        ),
        (b"arc,tick,mass/0\n", HistFileFault::Header),
        (b"arc,tick,mass/1000000001\n", HistFileFault::Header),
        (b"arc,tick,mass/4\n1,1,2\n1,2,3", HistFileFault::Sum(1)),
    ];
    for (bytes, want) in faults {
        let graph = read_graph(rt.alloc(), TRIANGLE)?;
        assert!(rt; bytes.len() < 1000);
        let fault = read_histograms(rt.alloc(), bytes.to_vec(rt.alloc())?, graph).err();
        assert_eq!(rt; fault, Some(want), "{}", bytes.len());
    }
    Ok(())
}

// Arcs without a weight: the least that has no good time is answered.
#[test]
fn least_arc_first(rt: HostRuntime) -> Result<(), Fail> {
    let faults = [
        (
            b"arc,tick,mass/4\n2,1,1".as_slice(),
            HistFileFault::ZeroTime(1),
        ),
        (b"arc,tick,mass/4\n1,1,5", HistFileFault::Sum(1)),
        (b"arc,tick,mass/4\n1,1,1", HistFileFault::ZeroTime(2)),
        (b"\xEF\xBB\xBFarc,tick,mass/4", HistFileFault::ZeroTime(1)),
    ];
    for (bytes, want) in faults {
        let graph = read_graph(rt.alloc(), b"p sp 2 2\na 1 2 0\na 1 2 0\n")?;
        assert!(rt; bytes.len() < 1000);
        let fault = read_histograms(rt.alloc(), bytes.to_vec(rt.alloc())?, graph).err();
        assert_eq!(rt; fault, Some(want));
    }
    Ok(())
}
