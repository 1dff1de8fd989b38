// The calls of a pool.

ghost use Rattle.sc_pool.specs.Pages.{page_of};
ghost use Rattle.std.specs.Prelude.{IsSome};

use sc_pool::{PageId, Pool};
use std::test::Fail;

fn is_zero(page: &[u8]) -> bool {
    page.len() == 4096 && page.iter().all(|byte| *byte == 0)
}

#[test]
fn two_pages(rt: HostRuntime) -> Result<(), Fail> {
    let mut pool = Pool::new(rt.alloc());
    assert!(rt; pool.take().is_none());
    pool.reserve(2)?;
    assert_eq!(rt; pool.spare(), 2);
    let first = pool.take().expect(&rt, "the first page");
    assert!(rt; is_zero(pool.page(&first)));
    let second = pool.take().expect(&rt, "the second page");
    assert!(rt; is_zero(pool.page(&second)));
    assert!(rt; pool.take().is_none());
    Ok(())
}

// Writes to a page, which stays out.
fn write(pool: &mut Pool, page: &PageId)
    requires { IsSome (page_of pool.old page.now) }
    ensures { IsSome (page_of pool.new page.now) }
{
    pool.page_mut(page)[7] = 9;
}

#[test]
fn cleared(rt: HostRuntime) -> Result<(), Fail> {
    let mut pool = Pool::new(rt.alloc());
    pool.reserve(1)?;
    let page = pool.take().expect(&rt, "a page");
    write(&mut pool, &page);
    assert_eq!(rt; pool.page(&page)[7], 9);
    assert!(rt; pool.take().is_none());
    pool.give(page);
    assert_eq!(rt; pool.spare(), 1);
    let again = pool.take().expect(&rt, "the same page");
    assert!(rt; is_zero(pool.page(&again)));
    Ok(())
}
