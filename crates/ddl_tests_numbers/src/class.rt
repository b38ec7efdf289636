use ddl_class::Class;

#[test]
fn ranges_at_both_ends_and_reversed(rt: HostRuntime) {
    // Each row: the range's ends, a byte, whether the byte is in.
    let rows = [
        (0, 0, 0, true),
        (0, 0, 1, false),
        (255, 255, 255, true),
        (255, 255, 254, false),
        (0, 255, 0, true),
        (0, 255, 128, true),
        (0, 255, 255, true),
        (b'0', b'9', b'/', false),
        (b'0', b'9', b'0', true),
        (b'0', b'9', b'9', true),
        (b'0', b'9', b':', false),
        (63, 64, 63, true),
        (63, 64, 64, true),
        (63, 64, 65, false),
        (9, 8, 8, false),
        (9, 8, 9, false),
        (255, 0, 0, false),
        (255, 0, 255, false),
    ];
    for (from, to, byte, inside) in rows {
        let class = Class::range(from, to);
        assert_eq!(rt; class.has(byte), inside, "{byte} in {from} .. {to}");
        assert_eq!(rt;
            class.not().has(byte),
            !inside,
            "{byte} outside {from} .. {to}"
        );
        assert_eq!(rt;
            class.or(Class::empty()).has(byte),
            inside,
            "{byte} in either"
        );
        assert!(rt; !Class::empty().has(byte));
    }
}

#[test]
fn run_length_ends_at_the_first_byte_outside(rt: HostRuntime) {
    let digits = Class::range(b'0', b'9');
    for length in 0..71_usize {
        for outside in 0..length + 1 {
            let mut text = [b'7'; 71];
            text[outside] = b'x';
            assert_eq!(rt;
                digits.run_length(&text[..length]),
                outside,
                "of {length} bytes"
            );
        }
    }
}
