// Examples of join, shift and hush, alone and in a stack.
use super::cases::{reads, refusal, span, writes};
use super::told;
use bus::contract::Bus;
use layers::hush::Hush;
use layers::join::Join;
use layers::shift::Shift;
use layers::{join, shift};
use probe::bank::{Direction, ProbeBank};
use span::spans::Spans;
use std::test::Fail;
use storage::image::Image;
use storage::memory::Memory;

#[test]
fn the_boundary_belongs_to_the_second_bus(rt: HostRuntime) {
    let mut low = [1, 2, 3, 4];
    let mut high = [5, 6, 7, 8];
    {
        let mut bus = Join::new(
            2,
            Memory::new(0, 10, &mut low),
            Memory::new(0, 20, &mut high),
        );
        reads(
            &rt,
            &bus,
            &[(1, Ok(2)), (2, Ok(7)), (4, Err(refusal(10, 4, 20)))],
        );
        writes(
            &rt,
            &mut bus,
            &[
                (1, 100, Ok(())),
                (2, 200, Ok(())),
                (0x100_0000, 1, Err(refusal(1, 0, 0))),
            ],
        );
    }
    assert_eq!(rt; low, [1, 100, 3, 4]);
    assert_eq!(rt; high, [5, 6, 200, 8]);
}

#[test]
fn a_boundary_above_the_last_address_leaves_all_to_the_first_bus(rt: HostRuntime) {
    assert_eq!(rt; told(join::check(0x100_0000)), Ok(()));
    assert_eq!(rt; told(join::check(0x100_0001)), Err(refusal(4, 0, 0)));
    let bytes = [1, 2];
    let bus = Join::new(
        u32::MAX,
        Image::new(0xFF_FFFF, 10, &bytes),
        Image::new(0, 20, &bytes),
    );
    reads(
        &rt,
        &bus,
        &[
            (0xFF_FFFF, Ok(1)),
            (0, Err(refusal(10, 0, 10))),
            (0x100_0000, Err(refusal(1, 0, 0))),
        ],
    );
}

#[test]
fn a_shift_goes_on_at_0_and_refuses_with_its_own_address(rt: HostRuntime) {
    assert_eq!(rt; told(shift::check(0xFF_FFFF)), Ok(()));
    assert_eq!(rt; told(shift::check(0x100_0000)), Err(refusal(4, 0, 0)));
    let bytes = [7, 8];
    let mut bus = Shift::new(0xFF_FFF0, Image::new(0x10, 30, &bytes));
    reads(
        &rt,
        &bus,
        &[
            (0x20, Ok(7)),
            (0x21, Ok(8)),
            (0x10, Err(refusal(10, 0x10, 30))),
        ],
    );
    writes(
        &rt,
        &mut bus,
        &[
            (0x20, 0, Err(refusal(11, 0x20, 30))),
            (5, 0, Err(refusal(10, 5, 30))),
        ],
    );
    assert_eq!(rt; told(bus.kind(0x100_0000)), Err(refusal(1, 0, 0)));
}

#[test]
fn a_distance_out_of_range_counts_modulo_the_number_of_addresses(rt: HostRuntime) {
    let bytes = [7, 8];
    let bus = Shift::new(0x100_0001, Image::new(0, 30, &bytes));
    reads(&rt, &bus, &[(0, Ok(8)), (0xFF_FFFF, Ok(7))]);
}

#[test]
fn a_hush_silences_its_spans_with_its_own_tag_and_keeps_what_lies_below(
    rt: HostRuntime,
) -> Result<(), Fail> {
    let mut bytes = [1, 2, 3, 4];
    {
        let mut bus = Hush::new(40, Memory::new(0, 10, &mut bytes));
        reads(&rt, &bus, &[(1, Ok(2))]);
        bus.set_spans(Spans::check(&[span(1, 2)])?);
        reads(
            &rt,
            &bus,
            &[
                (0, Ok(1)),
                (1, Err(refusal(10, 1, 40))),
                (4, Err(refusal(10, 4, 10))),
            ],
        );
        writes(
            &rt,
            &mut bus,
            &[(2, 99, Err(refusal(10, 2, 40))), (3, 99, Ok(()))],
        );
        bus.set_spans(Spans::empty());
        reads(&rt, &bus, &[(2, Ok(3)), (3, Ok(99))]);
    }
    assert_eq!(rt; bytes, [1, 2, 3, 99]);
    Ok(())
}

#[test]
fn a_probe_register_is_set_under_a_stack_of_layers(rt: HostRuntime) {
    let code = [0xA5];
    let mut ram = [0, 0];
    let probes = Shift::new(0xFF_FF00, ProbeBank::new(0x200, 5));
    let storage = Join::new(0x300, Memory::new(0x100, 3, &mut ram), probes);
    let below = Join::new(0x100, Image::new(0, 2, &code), storage);
    let mut bus = Hush::new(9, below);
    let bank = &mut bus.below.high.high.below;
    assert_eq!(rt; told(bank.set_answering(1, true)), Ok(()));
    assert_eq!(rt; told(bank.set_direction(1, Direction::Output)), Ok(()));
    writes(
        &rt,
        &mut bus,
        &[
            (0x301, 66, Ok(())),
            (0x101, 77, Ok(())),
            (0, 88, Err(refusal(11, 0, 2))),
        ],
    );
    reads(
        &rt,
        &bus,
        &[(0, Ok(0xA5)), (0x302, Err(refusal(10, 0x302, 5)))],
    );
    reads(
        &rt,
        &bus.below.high.high.below,
        &[(0x201, Ok(66)), (0x202, Err(refusal(10, 0x202, 5)))],
    );
    reads(&rt, &bus.below.high.low, &[(0x101, Ok(77))]);
}

#[test]
fn the_same_spans_are_set_twice(rt: HostRuntime) -> Result<(), Fail> {
    let bytes = [1, 2, 3];
    let middle = Spans::check(&[span(1, 1)])?;
    let mut bus = Hush::new(40, Image::new(0, 10, &bytes));
    for (spans, expected) in [
        (middle, Err(refusal(10, 1, 40))),
        (Spans::empty(), Ok(2)),
        (middle, Err(refusal(10, 1, 40))),
    ] {
        bus.set_spans(spans);
        reads(&rt, &bus, &[(0, Ok(1)), (1, expected)]);
    }
    Ok(())
}
