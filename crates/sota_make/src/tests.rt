// Networks that another program made, whose generator gives the words of PCG's own example.
use super::*;
use sota_network::Network;
use sota_units::{ArcId, Mass, Tick};
use std::test::Fail;

/// Whether the arc of a number has these ends, and these masses from a tick on.
fn is_arc(network: &Network, number: u32, ends: (u32, u32), least: u32, masses: [u32; 3]) -> bool {
    let (second, third) = (least.saturating_add(1), least.saturating_add(2));
    let pairs = [
        (Tick(least), Mass(masses[0])),
        (Tick(second), Mass(masses[1])),
        (Tick(third), Mass(masses[2])),
    ];
    match network.arc(ArcId(number)) {
        Some(arc) => {
            (arc.tail.get(), arc.head.get()) == ends && arc.time.pairs() == pairs.as_slice()
        }
        None => false,
    }
}

#[test]
fn made(rt: HostRuntime) -> Result<(), Fail> {
    let network = make_network(rt.alloc(), 7, 3, 5, 3)?;
    assert_eq!(rt; network.nodes(), 3);
    assert_eq!(rt; network.scale().get(), 1_000_000);
    assert_eq!(rt; network.arc_count(), 5);
    // The ring, and two arcs more.
    assert!(rt; is_arc(&network, 1, (1, 2), 3, [550_809, 8_659, 440_532]));
    assert!(rt; is_arc(&network, 2, (2, 3), 7, [553_722, 358_497, 87_781]));
    assert!(rt; is_arc(&network, 3, (3, 1), 9, [385_766, 315_786, 298_448]));
    assert!(rt; is_arc(&network, 4, (2, 1), 4, [271_697, 425_711, 302_592]));
    assert!(rt; is_arc(&network, 5, (2, 1), 7, [350_542, 108_806, 540_652]));
    Ok(())
}

// Numbers of nodes, of arcs and of ticks an arc that are outside their ranges.
#[test]
fn refused(rt: HostRuntime) -> Result<(), Fail> {
    let table = [
        (1, 2, 1),
        (10_001, 10_001, 1),
        (3, 2, 1),
        (2, 100_001, 1),
        (2, 2, 0),
        (2, 2, 1001),
        (2, 10_001, 1000),
    ];
    for (nodes, arcs, span) in table {
        let fault = make_network(rt.alloc(), 1, nodes, arcs, span).err();
        assert_eq!(rt; fault, Some(MakeFault::Size));
    }
    Ok(())
}
