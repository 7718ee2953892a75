// Laws of dates, of distances and of timings.
ghost use Rattle.tmm_laws.specs.DateLaw.{DatesExactlyWithoutNegativeCycle, DatesOrNegativeCycle};
ghost use Rattle.tmm_laws.specs.BeliefLaws.{SoundListsAreShortest, DistancesAreLeast, PointsTimeOccurrences, DistancesAreShortest};
ghost use Rattle.tmm_laws.specs.DistanceLaw.{DistancesAreTightest, ListDistancesAreTightest};
ghost use Rattle.tmm_laws.specs.TimingLaw.{TimingsAreTightest, SureInEveryTiming, EarlyDatesAreEarliest};

/// Constraints between declared points have dates exactly where no closed walk has a negative sum,
/// and each list of constraints has the one or the other.
pub fn dates_exactly_without_negative_cycle()
    ensures exactly { DatesExactlyWithoutNegativeCycle }
    ensures either { DatesOrNegativeCycle }
{}

/// Where some dates satisfy a well-formed list, its distances are shortest and its rules are sound.
pub fn sound_lists_are_shortest()
    ensures { SoundListsAreShortest }
{}

/// The distance of two points of a sound list is the least sum over all walks of its constraints.
pub fn distances_are_least()
    ensures { DistancesAreLeast }
{}

/// Occurrences of a sound list have earliest dates, as their rules say.
pub fn points_time_occurrences()
    ensures { PointsTimeOccurrences }
{}

/// Distances of occurrences of a sound list obey the triangle inequality.
pub fn distances_are_shortest()
    ensures { DistancesAreShortest }
{}

/// The tightest distance of two points is exactly what the dates allow: a number is kept by all
/// dates and reached by some, and where there is none some dates exceed any number.
pub fn distances_are_tightest()
    ensures of_constraints { DistancesAreTightest }
    ensures of_premises { ListDistancesAreTightest }
{}

/// The distance of points and occurrences is exactly what their timings allow, what is surely in
/// order is so in every timing, and the earliest dates are the earliest timing.
pub fn timings_are_tightest()
    ensures distances { TimingsAreTightest }
    ensures sure { SureInEveryTiming }
    ensures early { EarlyDatesAreEarliest }
{}
