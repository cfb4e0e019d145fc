//! Lists in an arena.

ghost use Rattle.std.specs.Prelude.{◌<◌, length};

use chain_arena::Chains;
use std::test::Fail;

// Whether the list has these items.
fn has(chains: &Chains<u32>, chain: usize, wanted: &[u32]) -> bool
    requires { chain < length chains.now.lists }
{
    let mut left = wanted;
    for item in chains.walk(chain) {
        let Some((next, rest)) = left.split_first() else {
            return false;
        };
        if item != next {
            return false;
        }
        left = rest;
    }
    left.is_empty() && chains.items(chain) == wanted.len()
}

#[test]
fn lists_are_joined_and_moved(rt: HostRuntime) -> Result<(), Fail> {
    let mut here: Chains<u32> = Chains::new(rt.alloc());
    here.reserve(3)?;
    let a = here.new_chain()?;
    let b = here.new_chain()?;
    assert_eq!(rt; (a, b, here.count()), (0, 1, 2));
    here.push_back(a, 7);
    here.push_back(b, 8);
    here.push_back(a, 9);
    here.concat(a, b);
    assert!(rt; has(&here, a, &[7, 9, 8]) && has(&here, b, &[]));
    let mut there: Chains<u32> = Chains::new(rt.alloc());
    there.reserve(3)?;
    let c = there.new_chain()?;
    let spare = here.spare();
    there.move_all(c, &mut here, a);
    assert!(rt; has(&here, a, &[]) && has(&here, b, &[]) && has(&there, c, &[7, 9, 8]));
    assert_eq!(rt; here.spare(), spare + 3);
    Ok(())
}
