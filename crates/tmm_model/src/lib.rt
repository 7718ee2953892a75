//! The plain types that the layers of the time map share (`src/`), and the definitions that the
//! contract of the program cites (`specs/`): names, points and premises, distances over
//! constraints, what tokens support, what is believed and why, and what each line of a script is
//! answered. **These definitions are what must be believed**, all but those of `specs/Types.antt`,
//! which contracts below the program's cite (its own reaches two of these, how a `Seq` and a `Name`
//! are seen). It stands on no other crate of this repository. The outline is that of Dean and
//! McDermott (1987) over Dechter, Meiri and Pearl (1991).
//!
//! What follows from the definitions stands in crates of its own: `walk_theory`, `list_theory`,
//! `belief_theory`, `tmm_grammar`, and the laws in `tmm_laws`. `tmm_examples` computes them on
//! worked scripts.
#![tactic(auto)]

mod answer;
mod bound;
mod changes;
mod fix;
mod limits;
mod line;
mod memory;
mod mode;
mod name;
mod point;
mod premise;
mod refusal;
mod rivals;
mod seq;
mod sure;
mod timeline;
mod token;
mod turn;
mod version;
mod walk;

pub use answer::{Answer, Blame, Cause, Report};
pub use bound::Bound;
pub use changes::{Changes, Clip, ListRow, Taken, WhyLine};
pub use fix::Fix;
pub use limits::{
    FIRST_HORIZON, GREATEST_NUMBER, LAST_HORIZON, LONGEST_LINE, LONGEST_NAME, LONGEST_SCRIPT,
    MOST_ANTECEDENTS, MOST_BLAMES, MOST_EDGES, MOST_EVENTS, MOST_EXCEPTIONS, MOST_FACTS,
    MOST_POINTS, MOST_PREMISES, MOST_SIZE,
};
pub use line::{Line, Query};
pub use memory::NoMemory;
pub use mode::{Mode, ModeCause, ModeLine};
pub use name::Name;
pub use point::{Occ, PointName, QueryPoint};
pub use premise::{Edit, Premise};
pub use refusal::{Refusal, Stop};
pub use rivals::Rivals;
pub use seq::Seq;
pub use sure::Sure;
pub use timeline::{Dated, PointDate, Timeline};
pub use token::{Shape, TokenRow};
pub use turn::Turn;
pub use version::Version;
pub use walk::{Side, WalkStep};
