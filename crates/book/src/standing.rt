// A group's level and mark.
ghost use Rattle.std.specs.Prelude.{◌≡◌};
ghost use Rattle.grain.specs.Lists.{◌and◌};
ghost use Rattle.book.specs.Book.{flag_word, is_flag, is_set, is_standing};

// The rule's mark: held on the ended day before, with a move of exactly E, and no new limits since.
#[repr(C)]
#[derive(Clone, Copy, Debug, Default, PartialEq, Eq)]
pub struct Standing {
    // 0 or 1 each.
    pub expanded: u32,
    pub marked: u32,
}

pub(crate) fn is_flag(word: u32) -> bool
    ensures { result ≡ is_flag word }
{
    word < 2
}

impl Standing {
    pub fn of(expanded: bool, marked: bool) -> Standing
        ensures { result ≡ record { expanded = flag_word expanded; marked = flag_word marked } }
    {
        Standing {
            expanded: u32::from(expanded),
            marked: u32::from(marked),
        }
    }

    pub fn is_expanded(&self) -> bool
        ensures { result ≡ is_set self.now.expanded }
    {
        self.expanded == 1
    }

    pub fn is_marked(&self) -> bool
        ensures { result ≡ is_set self.now.marked }
    {
        self.marked == 1
    }

    // Each of them is 0 or 1.
    pub(crate) fn has_flags(&self) -> bool
        ensures { result ≡ is_standing self.now }
    {
        is_flag(self.expanded) && is_flag(self.marked)
    }
}
