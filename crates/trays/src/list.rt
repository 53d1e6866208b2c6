// Reading the list of a tray.

// A lasso as it stands in a list: the letters of its prefix and of its loop.
#[derive(Clone, Copy)]
pub(crate) struct Lasso<'a> {
    pub(crate) prefix: &'a [u16],
    pub(crate) cycle: &'a [u16],
}

// The lassos of a list one after the other. The list is what is left of it: where none follows, the words behind the last.
#[derive(Drop)]
pub(crate) struct Lassos<'a> {
    pub(crate) list: &'a [u16],
}

impl<'a> Iterator for Lassos<'a> {
    ghost use Rattle.std.specs.Iterator.{item_count};
    ghost use Rattle.trays.specs.List.{lassos_left, NextLasso};

    type Item = Lasso<'a>;

    ghost next_gives = { NextLasso };

    ghost remaining = { item_count lassos_left };

    fn next(&mut self) -> Option<Lasso<'a>> {
        let [prefix, cycle, behind @ ..] = self.list else {
            return None;
        };
        let (prefix, behind) = behind.split_at_checked(*prefix as usize)?;
        let (cycle, behind) = behind.split_at_checked(*cycle as usize)?;
        self.list = behind;
        Some(Lasso { prefix, cycle })
    }
}
