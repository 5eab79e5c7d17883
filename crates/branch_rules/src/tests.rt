ghost use Rattle.std.specs.Prelude.{◌≡◌, false, Some};

use super::*;
use std::test::Fail;

fn made_false(var: u32) -> Option<Lit>
    ensures { result ≡ Some (record { var = var; positive = false }) }
{
    Some(Lit {
        var,
        positive: false,
    })
}

#[test]
fn picks_by_number(rt: HostRuntime) -> Result<(), Fail> {
    let values = [Some(true), None, Some(false), None];
    let mut first = First::new();
    let mut last = Last::new();
    first.start(rt.alloc(), 4)?;
    last.start(rt.alloc(), 4)?;
    first.note(4);
    first.settle();
    assert_eq!(rt; first.pick(values.as_slice()), made_false(2));
    assert_eq!(rt; last.pick(values.as_slice()), made_false(4));
    assert_eq!(rt; first.pick(&[Some(true)]), None);
    assert_eq!(rt; last.pick(&[]), None);
    let alloc = rt.alloc();
    let mut many = vec![in alloc; Some(true); 200]?;
    many[130] = None;
    assert_eq!(rt; first.pick(many.as_slice()), made_false(131));
    assert_eq!(rt; last.pick(many.as_slice()), made_false(131));
    let mut rule: Box<dyn Brancher> = Box::new(rt.alloc(), Last::new())?;
    assert_eq!(rt; rule.pick(values.as_slice()), made_false(4));
    Ok(())
}

// The scores are 0, 0, 1, 0 and then 0, 1, 1, 0. With the step 2 they are 0, 1, 1, 2 and then 0, 1, 3, 2.
#[test]
fn picks_by_score(rt: HostRuntime) -> Result<(), Fail> {
    let open = [None, None, None, None, None];
    let mut rule = Activity::new();
    assert_eq!(rt; rule.pick(open.as_slice()), made_false(1));
    rule.start(rt.alloc(), 4)?;
    assert_eq!(rt; rule.pick(open.as_slice()), made_false(1));
    rule.note(3);
    assert_eq!(rt; rule.pick(open.as_slice()), made_false(3));
    rule.note(2);
    assert_eq!(rt; rule.pick(open.as_slice()), made_false(2));
    rule.settle();
    rule.note(4);
    assert_eq!(rt; rule.pick(open.as_slice()), made_false(4));
    rule.note(3);
    rule.note(0);
    rule.note(5);
    assert_eq!(rt; rule.pick(open.as_slice()), made_false(3));
    assert_eq!(rt;
        rule.pick(&[None, None, Some(true), Some(false)]),
        made_false(2)
    );
    assert_eq!(rt;
        rule.pick(&[None, Some(true), Some(true), Some(false)]),
        made_false(1)
    );
    assert_eq!(rt;
        rule.pick(&[Some(true), Some(true), Some(true), Some(true), None]),
        made_false(5)
    );
    assert_eq!(rt;
        rule.pick(&[Some(true), Some(true), Some(true), Some(true)]),
        None
    );
    rule.start(rt.alloc(), 1000000)?;
    assert_eq!(rt; rule.pick(open.as_slice()), made_false(1));
    Ok(())
}
