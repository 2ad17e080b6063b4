ghost use Rattle.std.specs.Prelude.{◌≡◌, ◌≤◌, [], ◌++◌, OnOk};
ghost use Rattle.csv.specs.Records.{fields_of, partial_of};
ghost use Rattle.fractions.specs.Fraction.{IsFraction};
ghost use Rattle.fractions.specs.Tally.{IsTally, Passes};
ghost use Rattle.ranking.specs.Plain.{ArePlainFields};
ghost use Rattle.ranking.specs.Ranking.{share_fields, tally_fields};
ghost use Rattle.ranking.specs.Shares.{context_of, failure_of, increase_of};

use crate::line::push_number;
use cbi_base::Memory;
use csv::ByteRecord;
use fractions::{Fraction, Tally, importance, millionths};

/// The part of failing runs among those in which the predicate was true.
fn failure(tally: Tally) -> Fraction
    requires tally { IsTally tally }
    requires passes { Passes tally }
    ensures value { result ≡ failure_of tally }
    ensures fraction { IsFraction result }
    ensures at_most_one { result.top ≤ result.bottom }
{
    Fraction {
        top: u128::from(tally.a),
        bottom: u128::from(tally.a + tally.b),
    }
}

/// The part of failing runs among those in which it was observed.
fn context(tally: Tally) -> Fraction
    requires tally { IsTally tally }
    requires passes { Passes tally }
    ensures value { result ≡ context_of tally }
    ensures fraction { IsFraction result }
    ensures at_most_one { result.top ≤ result.bottom }
{
    Fraction {
        top: u128::from(tally.c),
        bottom: u128::from(tally.c + tally.d),
    }
}

/// The difference of the two.
fn increase(tally: Tally) -> Fraction
    requires tally { IsTally tally }
    requires passes { Passes tally }
    ensures value { result ≡ increase_of tally }
    ensures fraction { IsFraction result }
    ensures at_most_one { result.top ≤ result.bottom }
{
    let gain = u128::from(tally.a) * u128::from(tally.d);
    let loss = u128::from(tally.b) * u128::from(tally.c);
    Fraction {
        top: gain - loss,
        bottom: u128::from(tally.a + tally.b) * u128::from(tally.c + tally.d),
    }
}

/// Adds the four numbers of a predicate.
pub fn push_tally(record: &mut ByteRecord, tally: Tally) -> Result<(), Memory>
    requires { partial_of record.old ≡ [] }
    ensures fields { OnOk result (fields_of record.new ≡ fields_of record.old ++ tally_fields tally) }
    ensures partial { OnOk result (partial_of record.new ≡ []) }
    ensures plain { OnOk result (ArePlainFields (tally_fields tally)) }
{
    push_number(record, u64::from(tally.a))?;
    push_number(record, u64::from(tally.b))?;
    push_number(record, u64::from(tally.c))?;
    push_number(record, u64::from(tally.d))
}

/// Adds its four fractions in millionths.
pub fn push_shares(record: &mut ByteRecord, tally: Tally, failing: u32) -> Result<(), Memory>
    requires partial { partial_of record.old ≡ [] }
    requires tally { IsTally tally }
    requires passes { Passes tally }
    requires observed { tally.c ≤ failing }
    requires failing { failing ≤ 100000 }
    ensures fields { OnOk result (fields_of record.new ≡ fields_of record.old ++ share_fields tally failing) }
    ensures partial { OnOk result (partial_of record.new ≡ []) }
    ensures plain { OnOk result (ArePlainFields (share_fields tally failing)) }
{
    push_number(record, millionths(failure(tally)))?;
    push_number(record, millionths(context(tally)))?;
    push_number(record, millionths(increase(tally)))?;
    push_number(record, millionths(importance(tally, failing)))
}
