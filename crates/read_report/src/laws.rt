// What a report tells: the function does nothing, and its contract is the theorem.
ghost use Rattle.std.specs.Prelude.{◌≡◌, ℕ, List};
ghost use Rattle.read_report.specs.Report.{Reports};

/// A text has no two reports. Two texts may have one: `a` and `a` after a space both come to the line `0 name 0 a`.
pub fn reports_are_unique()
    ensures { (text out other : List ℕ) → Reports text out → Reports text other → other ≡ out }
{}
