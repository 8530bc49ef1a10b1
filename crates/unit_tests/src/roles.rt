// Templates of programs that have the wrong roles.

use crate::disks::is;
use templates::Template;
use udf_code::{decode, well_formed};
use udf_verify::{Role, verify};

/// A template's two programs the other way round, and then as they are to be.
#[test]
fn programs_have_their_roles(rt: HostRuntime) {
    let words = decode(rt.alloc(), &[0x01, 0x00, 0x04, 0x00]).expect(&rt, "words");
    assert!(rt; well_formed(&words).is_ok());
    for is_swapped in [true, false] {
        let owns = verify(rt.alloc(), &words, Role::Owns).expect(&rt, "an owns program");
        let size = verify(rt.alloc(), &words, Role::Size).expect(&rt, "a size program");
        let template = if is_swapped {
            Template::new(size, owns)
        } else {
            Template::new(owns, size)
        };
        is(&rt, "a template of both", template.is_none() == is_swapped);
    }
}
