use sc_zone::Zone;
use std::test::Fail;

#[test]
fn a_whole_zone_is_taken_and_given_back(rt: HostRuntime) -> Result<(), Fail> {
    let mut zone = Zone::new(rt.alloc())?;
    assert!(rt; zone.alloc(65_536) == Some(0));
    assert!(rt; zone.alloc(1).is_none());
    assert!(rt; !zone.free(1));
    assert!(rt; zone.free(0));
    assert!(rt; zone.alloc(0).is_none());
    assert!(rt; zone.alloc(65_537).is_none());
    Ok(())
}

#[test]
fn the_first_place_that_fits_is_taken(rt: HostRuntime) -> Result<(), Fail> {
    let mut zone = Zone::new(rt.alloc())?;
    for words in [2, 3, 4, 5] {
        assert!(rt; zone.alloc(words).is_some());
    }
    assert!(rt; zone.free(2) && zone.free(9));
    assert!(rt; zone.alloc(4) == Some(9));
    assert!(rt; zone.alloc(3) == Some(2));
    assert!(rt; zone.free(0));
    assert!(rt; zone.alloc(2) == Some(0));
    assert!(rt; zone.alloc(1) == Some(13));
    Ok(())
}

#[test]
fn a_hole_among_many_blocks_is_found(rt: HostRuntime) -> Result<(), Fail> {
    let mut zone = Zone::new(rt.alloc())?;
    for place in 0..600 {
        assert!(rt; zone.alloc(1) == Some(place));
    }
    assert!(rt; zone.free(300) && zone.free(599) && zone.free(511) && zone.free(512));
    assert!(rt; zone.words_at(300).is_none());
    assert!(rt; zone.alloc(3) == Some(599));
    assert!(rt; zone.alloc(2) == Some(511));
    assert!(rt; zone.alloc(1) == Some(300));
    assert!(rt; zone.words_at(511) == Some(2));
    assert!(rt; zone.alloc(1) == Some(602));
    Ok(())
}
