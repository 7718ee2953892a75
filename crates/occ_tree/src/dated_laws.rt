// Laws of dates: what leaves the dates that are kept those of a network.
ghost use Rattle.occ_tree.specs.DatedLaws.{PointsDateNodes, RootsKeepDates, EffectsKeepDates, WithdrawalsKeepDates, RootsDateAll};

/// The earliest date of a node in a network is that of its point and the least delays on the way.
pub fn points_date_nodes()
    ensures { PointsDateNodes }
{}

/// A new root with the date of its point leaves all dates those of the network.
pub fn roots_keep_dates()
    ensures { RootsKeepDates }
{}

/// So does what a rule leads to, with the date of its event and the least delay.
pub fn effects_keep_dates()
    ensures { EffectsKeepDates }
{}

/// So does a node that goes with all below it.
pub fn withdrawals_keep_dates()
    ensures { WithdrawalsKeepDates }
{}

/// Where roots have the dates of their points, all dates are those of the network.
pub fn roots_date_all()
    ensures { RootsDateAll }
{}
