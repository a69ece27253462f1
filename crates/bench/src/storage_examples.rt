// Examples of a memory and an image.
use super::cases::refusal;
use super::told;
use bus::contract::Bus;
use storage::image::Image;
use storage::memory::Memory;

#[test]
fn a_memory_is_open_inside_and_silent_outside(rt: HostRuntime) {
    let mut bytes = [1, 2, 3];
    let mut memory = Memory::new(0x10, 9, &mut bytes);
    assert_eq!(rt; told(memory.read(0x0F)), Err(refusal(10, 0x0F, 9)));
    assert_eq!(rt; told(memory.read(0x10)), Ok(1));
    assert_eq!(rt; told(memory.write(0x12, 7)), Ok(()));
    assert_eq!(rt; told(memory.read(0x12)), Ok(7));
    assert_eq!(rt; told(memory.write(0x13, 7)), Err(refusal(10, 0x13, 9)));
    assert_eq!(rt; told(memory.kind(0x100_0000)), Err(refusal(1, 0, 0)));
}

#[test]
fn a_memory_leaves_out_what_lies_above_the_last_address(rt: HostRuntime) {
    assert_eq!(rt; told(Memory::check(0xFF_FFFE, 2)), Ok(()));
    assert_eq!(rt; told(Memory::check(0xFF_FFFE, 3)), Err(refusal(4, 0, 0)));
    let mut bytes = [1, 2, 3];
    {
        let mut memory = Memory::new(0xFF_FFFE, 9, &mut bytes);
        assert_eq!(rt; told(memory.write(0xFF_FFFF, 8)), Ok(()));
        assert_eq!(rt; told(memory.write(0x100_0000, 8)), Err(refusal(1, 0, 0)));
        assert_eq!(rt; told(memory.write(0, 8)), Err(refusal(10, 0, 9)));
    }
    assert_eq!(rt; bytes, [1, 8, 3]);
}

#[test]
fn an_image_is_fixed(rt: HostRuntime) {
    let bytes = [0x4A, 0x4B];
    let mut image = Image::new(0xFF_0000, 4, &bytes);
    assert_eq!(rt; told(image.read(0xFF_0001)), Ok(0x4B));
    assert_eq!(rt;
        told(image.write(0xFF_0001, 0)),
        Err(refusal(11, 0xFF_0001, 4))
    );
    assert_eq!(rt;
        told(image.write(0xFF_0002, 0)),
        Err(refusal(10, 0xFF_0002, 4))
    );
    assert_eq!(rt; told(image.read(0xFF_0001)), Ok(0x4B));
    assert_eq!(rt;
        told(Image::check(0xFF_0000, 0x1_0001)),
        Err(refusal(4, 0, 0))
    );
}
