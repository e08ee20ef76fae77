// Leaves of other kinds, and who offers sums.
use crate::Nothing;
use crate::fixtures::{only, row, worth};
use bound_rows::{Better, Bound, BoundProvider, Domains, Leaf, LeafProof, Plain, Unsound, marks};
use std::test::Fail;

#[test]
fn nothing_costs_less_than_0(rt: HostRuntime) -> Result<(), Fail> {
    let alloc = rt.alloc();
    let problem = row(alloc)?;
    let domains = Domains::whole(alloc, &problem)?;
    assert_eq!(rt;
        worth(alloc, &Nothing {}, &problem, &domains)?,
        Ok(Bound::Least(0))
    );
    Ok(())
}

#[test]
fn the_better_of_plain_and_plain(rt: HostRuntime) -> Result<(), Fail> {
    let alloc = rt.alloc();
    let problem = row(alloc)?;
    let domains = Domains::whole(alloc, &problem)?;
    let mut provider = Better::new(Plain::new(), Plain::new());
    let sum = provider.offer(alloc, &problem, &domains, 10, 1_000)?;
    assert_eq!(rt; provider.hint(&problem, &domains), None);
    assert_eq!(rt; marks(&sum), 0);
    assert_eq!(rt;
        worth(alloc, &sum, &problem, &domains)?,
        Ok(Bound::Least(0))
    );
    let leaf = Leaf::Sum(sum);
    assert_eq!(rt;
        worth(alloc, &leaf, &problem, &domains)?,
        Ok(Bound::Least(0))
    );
    Ok(())
}

#[test]
fn areas_of_one_class_each(rt: HostRuntime) -> Result<(), Fail> {
    let alloc = rt.alloc();
    let problem = row(alloc)?;
    let mut domains = Domains::whole(alloc, &problem)?;
    assert_eq!(rt;
        Leaf::Fixed.sound(&problem, &domains),
        Err(Unsound::NotFixed { area: 0 })
    );
    only(&mut domains, 0, 0, 1)?;
    assert!(rt; domains.single(0));
    assert_eq!(rt;
        Leaf::Fixed.sound(&problem, &domains),
        Err(Unsound::NotFixed { area: 1 })
    );
    let mut apart = domains.copy(alloc)?;
    only(&mut domains, 1, 0, 1)?;
    only(&mut domains, 2, 0, 1)?;
    assert_eq!(rt;
        worth(alloc, &Leaf::Fixed, &problem, &domains)?,
        Ok(Bound::Least(10))
    );
    only(&mut apart, 1, 1, 0)?;
    only(&mut apart, 2, 0, 1)?;
    assert_eq!(rt;
        worth(alloc, &Leaf::Fixed, &problem, &apart)?,
        Ok(Bound::Void)
    );
    Ok(())
}

#[test]
fn domains_change_and_change_back(rt: HostRuntime) -> Result<(), Fail> {
    let alloc = rt.alloc();
    let problem = row(alloc)?;
    let mut domains = Domains::whole(alloc, &problem)?;
    let before = domains.set_of(1);
    only(&mut domains, 1, 0, 1)?;
    assert!(rt; !domains.allows(1, 1));
    domains.restore(1, before);
    assert!(rt; domains.allows(1, 1));
    Ok(())
}
