// The flags of the steps: these three functions read and write them, and nothing else does.
ghost use Rattle.std.specs.Prelude.{◌≡◌, ◌<◌};
ghost use Rattle.base.specs.Sets.{add1};
ghost use Rattle.dropping.specs.Kept.{without};
ghost use Rattle.trials.specs.Flags.{kept, room};

// Whether step k is kept.
pub fn is_kept(flags: &[u8], k: usize) -> bool
    ensures { result ≡ kept flags.now k }
{
    base::byte_at(flags, k) == 0
}

// Drops step k.
pub fn drop_step(flags: &mut [u8], k: usize)
    requires { k < room flags.old }
    ensures { kept flags.new ≡ without (kept flags.old) k }
{
    flags[k] = 1;
}

// Puts step k back.
pub fn put_back(flags: &mut [u8], k: usize)
    requires { k < room flags.old }
    ensures { kept flags.new ≡ add1 k (kept flags.old) }
{
    flags[k] = 0;
}
