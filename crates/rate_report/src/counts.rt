// What the summary of a report counts.
ghost use Rattle.std.specs.Prelude.{◌≡◌, ◌+◌, ◌^◌, ◌<◌, ◌≤◌, cond, length};
ghost use Rattle.std.specs.Option.{option_to_list};
ghost use Rattle.rate_report.specs.Report.{is_own};

// How many words are listed, how many rates they spell, and how many of these are the first of their kind.
#[derive(Drop)]
pub(crate) struct Counts {
    pub(crate) words: usize,
    pub(crate) rates: usize,
    pub(crate) different: usize,
    ghost nested: { (different ≤ rates) × (rates ≤ words) },
}

impl Counts {
    // Before the first word.
    pub(crate) fn new() -> Counts
        ensures words { result.words ≡ 0 }
        ensures rates { result.rates ≡ 0 }
        ensures different { result.different ≡ 0 }
    {
        Counts {
            words: 0,
            rates: 0,
            different: 0,
        }
    }

    // Counts a word, with the number of the rate that it spells, if it spells one: the rate is the first of its kind where the
    // number is its own index.
    pub(crate) fn add(&mut self, number: Option<usize>)
        requires { self.old.words + 1 < 2 ^ 64 }
        ensures words { self.new.words ≡ self.old.words + 1 }
        ensures rates { self.new.rates ≡ self.old.rates + length (option_to_list number) }
        ensures different { self.new.different ≡ self.old.different + cond (is_own self.old.rates number) 1 0 }
    {
        self.words += 1;
        if let Some(number) = number {
            self.different += usize::from(number == self.rates);
            self.rates += 1;
        }
    }
}
