ghost use Rattle.std.specs.Prelude.{◌≡◌, not};
ghost use Rattle.rt_plain.specs.kernel.State.{is_nest_of_other};

use cpus_lock::Nest;
use rand_core::SeedableRng;
use rand_core::utils::NextWord;
use rand_pcg::Pcg32;
use rt_base::{Code, CoreNo};
use std::test::Fail;

#[test]
fn a_nest_is_255_deep_at_most(rt: HostRuntime) {
    let mut nest = Nest::new();
    assert_eq!(rt; nest.leave(CoreNo(0)), Code::Error);
    for depth in 1..=255u8 {
        assert!(rt; may_enter(&nest, CoreNo(0)));
        assert_eq!(rt; nest.enter(CoreNo(0)), Code::Ok);
        assert_eq!(rt; nest.holder(), Some((CoreNo(0), depth)));
    }
    assert!(rt; may_enter(&nest, CoreNo(0)));
    assert_eq!(rt; nest.enter(CoreNo(0)), Code::Full);
    assert_eq!(rt; nest.leave(CoreNo(1)), Code::Error);
    assert_eq!(rt; nest.holder(), Some((CoreNo(0), 255)));
    for _ in 0..255u8 {
        assert_eq!(rt; nest.leave(CoreNo(0)), Code::Ok);
    }
    assert_eq!(rt; nest.holder(), None);
    assert_eq!(rt; nest.leave(CoreNo(0)), Code::Error);
}

#[test]
fn a_core_drops_its_own_nest_alone(rt: HostRuntime) {
    let mut nest = Nest::new();
    assert_eq!(rt; nest.enter(CoreNo(1)), Code::Ok);
    assert!(rt; may_enter(&nest, CoreNo(1)));
    assert_eq!(rt; nest.enter(CoreNo(1)), Code::Ok);
    nest.drop_all(CoreNo(0));
    assert_eq!(rt; nest.holder(), Some((CoreNo(1), 2)));
    nest.drop_all(CoreNo(1));
    assert_eq!(rt; nest.holder(), None);
}

fn may_enter(nest: &Nest, core: CoreNo) -> bool
    ensures { result ≡ not (is_nest_of_other core nest.now) }
{
    nest.holder().is_none_or(|(holder, _)| holder == core)
}

#[test]
fn a_nest_answers_as_a_plain_list(rt: HostRuntime) -> Result<(), Fail> {
    let mut draws = Pcg32::seed_from_u64(15);
    let mut nest = Nest::new();
    let mut plain: Vec<CoreNo> = Vec::new(rt.alloc());
    for _ in 0..300u32 {
        let draw = draws.next_word();
        let core = CoreNo((draw % 2) as u8);
        let is_held = plain.last().copied() == Some(core);
        match draw / 2 % 4 {
            0 => {
                nest.drop_all(core);
                if is_held {
                    plain.clear();
                }
            }
            1 => {
                assert_eq!(rt; nest.leave(core) == Code::Ok, is_held);
                if is_held {
                    plain.pop();
                }
            }
            _ => {
                if may_enter(&nest, core) {
                    assert_eq!(rt; nest.enter(core), Code::Ok);
                    plain.push(core)?;
                }
            }
        }
        let holder = nest.holder().map(|(core, depth)| (core, depth as usize));
        assert_eq!(rt; holder, plain.last().map(|core| (*core, plain.len())));
    }
    Ok(())
}
