// A table of entries that a walk has come to.
ghost use Rattle.std.specs.Prelude.{◌<◌, ◌^◌};

#[derive(Clone, Copy)]
pub struct Table {
    pub address: u64,
    // Every entry on the way here lets the user in.
    pub user: bool,
    ghost within: { address < 2 ^ 52 },
}
