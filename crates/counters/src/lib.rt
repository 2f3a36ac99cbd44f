// The two counters of a peer, lent, so that they move only through close and back.
// `current` is p of document 01, the open period (the number of periods: none); `to_back` is c, the next period to
// back. The rules call them `current` and `to_back`.
// `close` and `back` take the counters lent; `after_close` and `after_back` lend a copy to them, for those who hold the
// counters by value.
// It uses no other crate.
#![tactic(auto)]

ghost use Rattle.std.specs.Prelude.{◌≡◌, ◌<◌};
ghost use Rattle.counters.specs.Counters.{rise_current, rise_to_back};

#[derive(Clone, Copy)]
pub struct Counters {
    pub current: u8, // p, the open period
    pub to_back: u8, // c, the next period to back
}

// The open period rises by one.
fn closed(k: Counters) -> Counters
    requires { k.current < 255 }
    ensures { result ≡ rise_current k }
{
    Counters {
        current: k.current + 1,
        ..k
    }
}

// The next period to back rises by one.
fn backed(k: Counters) -> Counters
    requires { k.to_back < 255 }
    ensures { result ≡ rise_to_back k }
{
    Counters {
        to_back: k.to_back + 1,
        ..k
    }
}

// The lent counters after a close.
pub fn close(k: &mut Counters)
    requires { k.old.current < 255 }
    ensures { k.new ≡ rise_current k.old }
{
    *k = closed(*k);
}

// The lent counters after a backing.
pub fn back(k: &mut Counters)
    requires { k.old.to_back < 255 }
    ensures { k.new ≡ rise_to_back k.old }
{
    *k = backed(*k);
}

// What `close` makes of these counters.
pub fn after_close(k: Counters) -> Counters
    requires { k.current < 255 }
    ensures { result ≡ rise_current k }
{
    let mut m = k;
    close(&mut m);
    m
}

// What `back` makes of these counters.
pub fn after_back(k: Counters) -> Counters
    requires { k.to_back < 255 }
    ensures { result ≡ rise_to_back k }
{
    let mut m = k;
    back(&mut m);
    m
}
