//! The trail.

use logic_values::{formula_of, literal};
use sat_trail::Trail;
use std::test::Fail;

/// Each call asks that memory never ran out before, so behind an error the trail is only dropped. With an allocation
/// refused (`rt try --test --fail-alloc N`) one of them meets such an error; else none does.
#[test]
fn a_trail_goes_on_while_memory_lasts(rt: HostRuntime) -> Result<(), Fail> {
    let alloc = rt.alloc();
    let cnf = formula_of(alloc, 4, &[&[1, 2], &[-2, 3], &[-3, -4, 2]])?;
    let mut trail = Trail::new(alloc, &cnf)?;
    match trail.propagate() {
        Ok(conflict) => assert!(rt; conflict.is_none()),
        Err(_) => return Ok(()),
    }
    let denied = literal(-1)?;
    if denied.variable() <= 4 && trail.value(denied).is_none() {
        match trail.decide(denied) {
            Ok(()) => assert_eq!(rt; trail.level(), 1),
            Err(_) => return Ok(()),
        }
        if let Ok(conflict) = trail.propagate() {
            assert!(rt; conflict.is_none());
            assert_eq!(rt; trail.set_count(), 3);
        }
    }
    Ok(())
}
