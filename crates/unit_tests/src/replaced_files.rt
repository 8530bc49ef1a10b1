// Each call of a system fails in turn. No clause says what a system does, so this one, in memory, shows what is left of the files.

use std::io::ErrorKind;
use std::test::Fail;
use system_files::{Found, Links, Source, System, WriteFault, write_by};

/// A file of two names: its own, which is locked and has old bytes, and that of the new file beside it.
#[derive(Drop)]
struct FalseSystem {
    calls: usize,
    /// The number of the call that fails.
    failing: usize,
    is_beside: bool,
    is_filled: bool,
    is_synced: bool,
    is_replaced: bool,
}

impl FalseSystem {
    fn new(failing: usize) -> FalseSystem {
        FalseSystem {
            calls: 0,
            failing,
            is_beside: false,
            is_filled: false,
            is_synced: false,
            is_replaced: false,
        }
    }

    fn call(&mut self) -> Result<(), WriteFault> {
        self.calls = self.calls.wrapping_add(1);
        if self.calls == self.failing {
            return Err(WriteFault::System(ErrorKind::Other.into()));
        }
        Ok(())
    }
}

impl System for FalseSystem {
    ghost use Rattle.std.specs.Prelude.{None};

    type Handle = ();

    ghost calls = { λ _. None };

    fn look(&mut self, _name: &str) -> Result<Found, WriteFault> {
        self.call()?;
        Ok(Found::Regular)
    }

    fn look_through(&mut self, _name: &str) -> Result<Found, WriteFault> {
        self.call()?;
        Ok(Found::Regular)
    }

    fn resolve(&mut self, _name: &str) -> Result<String, WriteFault> {
        Err(WriteFault::NoMemory)
    }

    fn open(&mut self, _name: &str) -> Result<(), WriteFault> {
        self.call()
    }

    fn kind(&mut self, _file: &()) -> Result<Found, WriteFault> {
        self.call()?;
        Ok(Found::Regular)
    }

    fn lock(&mut self, _file: &()) -> Result<(), WriteFault> {
        self.call()
    }

    fn is_at(&mut self, _file: &(), _path: &str) -> Result<bool, WriteFault> {
        self.call()?;
        Ok(true)
    }

    fn open_folder(&mut self, _name: &str) -> Result<(), WriteFault> {
        self.call()
    }

    fn make(&mut self, name: &str) -> Result<Option<()>, WriteFault> {
        self.call()?;
        if name != "folder/name.new2" {
            return Ok(None);
        }
        self.is_beside = true;
        Ok(Some(()))
    }

    fn keep(&mut self, _file: &(), _old: &()) -> Result<(), WriteFault> {
        self.call()
    }

    fn write<S: Source + Drop>(&mut self, _file: &mut (), _source: S) -> Result<(), WriteFault> {
        self.call()?;
        self.is_filled = true;
        Ok(())
    }

    fn sync(&mut self, _file: &()) -> Result<(), WriteFault> {
        self.call()?;
        self.is_synced = self.is_filled;
        Ok(())
    }

    fn rename(&mut self, from: &str, to: &str) -> Result<(), WriteFault> {
        self.call()?;
        self.is_beside = from != "folder/name.new2";
        self.is_replaced = self.is_synced && to == "folder/name";
        Ok(())
    }

    fn sync_folder(&mut self, _folder: &()) -> Result<(), WriteFault> {
        self.call()
    }

    fn remove(&mut self, name: &str) {
        self.is_beside = self.is_beside && name != "folder/name.new2";
    }
}

#[test]
fn each_call_fails_in_turn(rt: HostRuntime) -> Result<(), Fail> {
    for failing in 0..16 {
        let mut system = FalseSystem::new(failing);
        let bytes: &[u8] = b"new";
        let written = write_by(
            &mut system,
            rt.alloc(),
            "folder/name",
            Links::Refused,
            bytes,
        );
        let ends_well = failing == 0 || failing > 14;
        assert_eq!(rt; written.is_ok(), ends_well, "failing {failing}");
        assert!(rt; !system.is_beside, "failing {failing}");
        assert_eq!(rt;
            system.is_replaced,
            ends_well || failing == 14,
            "failing {failing}"
        );
    }
    Ok(())
}
