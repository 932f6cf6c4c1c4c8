// Draws that another program of the generator made, which gives the words of PCG's own example.
use crate::Words;
use sota_units::Scale;
use std::test::Fail;

#[test]
fn draws(rt: HostRuntime) -> Result<(), Fail> {
    let million = Scale::new(1_000_000).ok_or("a scale")?;
    let table = [
        (0, [832_011, 907_630, 227_959, 480_533]),
        (1, [442_723, 27_207, 684_957, 639_903]),
        (4_294_967_295, [401_076, 582_329, 423_292, 135_167]),
    ];
    for (seed, wanted) in table {
        let mut words = Words::new(seed);
        for number in wanted {
            assert_eq!(rt; words.draw(million), number);
        }
    }
    let mut words = Words::new(7);
    for number in [0, 3, 0, 2, 3, 3] {
        assert_eq!(rt; words.draw_below(4), number);
    }
    assert_eq!(rt; words.draw_below(0), 0);
    Ok(())
}
