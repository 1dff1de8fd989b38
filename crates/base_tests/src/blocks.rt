use sc_blocks::{BlockFault, Blocks, Cell, Pointer};
use sc_event::CompId;
use std::test::Fail;

#[test]
fn ended_blocks_dangle(rt: HostRuntime) -> Result<(), Fail> {
    let comp = CompId::first();
    let mut blocks = Blocks::new(rt.alloc());
    assert!(rt; blocks.made(comp) == 0);
    let block = blocks.new_blank(comp, 2)?;
    let place = Cell::Ptr(Pointer { block, index: 1 });
    assert!(rt; blocks.load(comp, place) == Err(BlockFault::Indeterminate));
    assert!(rt; blocks.store(comp, place, Cell::Word(7)) == Ok(()));
    assert!(rt; blocks.load(comp, place) == Ok(Cell::Word(7)));
    let past = Cell::Ptr(Pointer { block, index: 2 });
    assert!(rt; blocks.store(comp, past, Cell::Word(7)) == Err(BlockFault::OutOfBounds));
    blocks.end(comp, block, 1);
    assert!(rt; blocks.load(comp, place) == Err(BlockFault::Dangling));
    assert!(rt; blocks.load(comp, Cell::Null) == Err(BlockFault::NullUse));
    assert!(rt; blocks.made(comp) == 1);
    Ok(())
}

#[test]
fn later_blocks_live_on(rt: HostRuntime) -> Result<(), Fail> {
    let comp = CompId::first();
    let mut blocks = Blocks::new(rt.alloc());
    for made in 0..4 {
        assert!(rt; blocks.made(comp) == made);
        blocks.new_block(comp, &[Cell::Word(5)])?;
    }
    blocks.end(comp, 1, 2);
    for (block, lives) in [(0, true), (1, false), (2, false), (3, true), (4, false)] {
        let place = Cell::Ptr(Pointer { block, index: 0 });
        assert_eq!(rt; blocks.load(comp, place).is_ok(), lives);
    }
    Ok(())
}
