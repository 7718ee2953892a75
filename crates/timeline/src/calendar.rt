// What comes on each day.
ghost use Rattle.std.specs.Prelude.{◌≡◌, ◌+◌, ◌<◌, ◌≤◌, ◌++◌, ◌∷◌, [], ℕ, cond, nat_eq, length, vec_len, replicate, IfOk, IfErr, OnOk, suc, pos, ◌≤ℤ◌, int_lt, ◌≢◌};
ghost use Rattle.tmm_model.specs.Answers.{weight, most_size};
ghost use Rattle.tmm_model.specs.Beliefs.{rules_at};
ghost use Rattle.tmm_model.specs.Moments.{rules as rules_of};
ghost use Rattle.tmm_model.specs.Maps.{built};
ghost use Rattle.timeline.specs.Calendars.{rows_on, Places, Brought};
ghost use Rattle.timeline.specs.Kinds.{AreRules};
ghost use Rattle.timeline.specs.Rows.{IsRowOf, moment};
ghost use Rattle.timeline.specs.Told.{IsTooLarge};

use crate::kinds::RulesByKind;
use crate::row::Row;
use premise_list::Standing;
use std::alloc::Global;
use std::mem;
use tmm_model::{MOST_SIZE, NoMemory, Refusal, Stop};

/// What comes on each day, as far as it is known.
#[derive(Drop)]
pub(crate) struct Calendar {
    /// What comes on each day up to the horizon, the first day at 0.
    pub days: Vec<Vec<Row>>,
    /// What comes after the horizon.
    pub later: Vec<Row>,
    /// The size of all that comes.
    pub size: u64,
}

impl Calendar {
    /// No day on which anything comes, up to the horizon.
    pub fn make(alloc: Global, horizon: u32) -> Result<Calendar, NoMemory>
        ensures days { IfOk result (λ made. length made.days.items ≡ suc horizon) }
        ensures empty { IfOk result (λ made. (i : ℕ) → rows_on made.days.items i ≡ []) }
        ensures later { IfOk result (λ made. made.later.items ≡ []) }
        ensures size { IfOk result (λ made. made.size ≡ 0) }
    {
        Ok(Calendar {
            days: empty_days(alloc, horizon)?,
            later: Vec::new(alloc),
            size: 0,
        })
    }

    /// Enters an occurrence on its date. It is refused where the size is too large with it.
    pub fn enter(&mut self, standing: &Standing, rules: &RulesByKind, row: Row) -> Result<(), Stop>
        requires rules { AreRules standing.now.present rules.now }
        requires row { IsRowOf (built standing.now.present) row }
        requires soon { pos 0 ≤ℤ row.date }
        requires small { self.old.size ≤ most_size }
        ensures ok { OnOk result (Brought (built standing.now.present) (moment row ∷ []) self.old self.new) }
        ensures stops { IfErr result (IsTooLarge (self.old.size + weight (built standing.now.present) (moment row))) }
    {
        let size = grown(self.size, &row, rules.at(standing, &row).len())?;
        self.place(row)?;
        self.size = size;
        Ok(())
    }

    // Puts an occurrence on its date.
    fn place(&mut self, row: Row) -> Result<(), NoMemory>
        requires { pos 0 ≤ℤ row.date }
        ensures ok { OnOk result (Places row self.old self.new) }
    {
        if row.date < self.days.len() as i64 {
            put(&mut self.days, row.date as usize, row)
        } else {
            self.later.push(row)?;
            Ok(())
        }
    }
}

// The size with an occurrence more, on which so many rules are.
fn grown(size: u64, row: &Row, rules: usize) -> Result<u64, Stop>
    requires small { size ≤ most_size }
    requires few { rules ≤ 2000 }
    ensures ok { IfOk result (λ grown. (grown ≡ size + (1 + length row.now.occ.rules.items + rules)) × (grown ≤ most_size)) }
    ensures stops { IfErr result (IsTooLarge (size + (1 + length row.now.occ.rules.items + rules))) }
{
    let grown = size + (1 + row.occ.rules.items().len() as u64 + rules as u64);
    if grown > MOST_SIZE {
        return Err(Stop::Refused(Refusal::LimitSize));
    }
    Ok(grown)
}

fn empty_days(alloc: Global, horizon: u32) -> Result<Vec<Vec<Row>>, NoMemory>
    ensures days { IfOk result (λ days. length days.items ≡ suc horizon) }
    ensures empty { IfOk result (λ days. (i : ℕ) → rows_on days.items i ≡ []) }
{
    let mut days = Vec::new(alloc);
    for _ in 0..horizon as usize + 1 {
        days.push(Vec::new(alloc))?;
    }
    Ok(days)
}

// Adds an occurrence behind what comes on a day.
fn put(days: &mut Vec<Vec<Row>>, day: usize, row: Row) -> Result<(), NoMemory>
    requires { day < length days.old.items }
    ensures len { length days.new.items ≡ length days.old.items }
    ensures ok { OnOk result ((i : ℕ) → rows_on days.new.items i ≡ rows_on days.old.items i ++ cond (nat_eq i day) (row ∷ []) []) }
{
    days[day].push(row)?;
    Ok(())
}

/// Takes out what comes on a day.
pub(crate) fn take_out(alloc: Global, days: &mut Vec<Vec<Row>>, day: usize) -> Vec<Row>
    requires { day < length days.old.items }
    ensures taken { result.items ≡ rows_on days.old.items day }
    ensures none { rows_on days.new.items day ≡ [] }
    ensures len { length days.new.items ≡ length days.old.items }
    ensures others { (i : ℕ) → i ≢ day → rows_on days.new.items i ≡ rows_on days.old.items i }
{
    mem::replace(&mut days[day], Vec::new(alloc))
}

/// Puts back what comes on a day.
pub(crate) fn put_back(days: &mut Vec<Vec<Row>>, day: usize, rows: Vec<Row>)
    requires { day < length days.old.items }
    ensures put { rows_on days.new.items day ≡ rows.items }
    ensures len { length days.new.items ≡ length days.old.items }
    ensures others { (i : ℕ) → i ≢ day → rows_on days.new.items i ≡ rows_on days.old.items i }
{
    days[day] = rows;
}
