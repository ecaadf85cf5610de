// Theorems about pairs of offset and length.
ghost use Rattle.rules.specs.Pairs.{LaidIsTheRule};

// The check of pairs passes exactly the lists that keep the rule of pairs.
pub fn laid_is_the_rule()
    ensures { LaidIsTheRule }
{}
