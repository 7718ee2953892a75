// Laws of negative cycles.
ghost use Rattle.tmm_laws.specs.CycleLaw.{CycleSumsAreOne, CyclesTellTheSum};
ghost use Rattle.tmm_laws.specs.DistanceLaw.{CyclesRefuse, CyclesAreNegative};

/// The sum that a refusal for a negative cycle tells is fixed by the list and the premise.
pub fn cycle_sums_are_one()
    ensures one { CycleSumsAreOne }
    ensures told { CyclesTellTheSum }
{}

/// A negative cycle is a certificate: no dates satisfy the premises together with the refused one.
/// The cycle that a refusal shows is one.
pub fn cycles_refuse()
    ensures refuses { CyclesRefuse }
    ensures shown { CyclesAreNegative }
{}
