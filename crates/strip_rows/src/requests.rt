// The requests that the rows of a strip say: 6 and 7 over all of them, and those that are alike in counterparty and code.
ghost use Rattle.std.specs.Prelude.{◌≡◌, length};
ghost use Rattle.rules.specs.Basics.{any_passes};
ghost use Rattle.rules.specs.Verdicts.{applies, first_to_apply, checked};
ghost use Rattle.rules.specs.Requests.{head_length, row_length, kind_number, register, request_of};
ghost use Rattle.rules.specs.Registration.{of_code, twins};
ghost use Rattle.rules.specs.Strips.{IsRegister};
ghost use Rattle.strip_rows.specs.Rows.{requests_from, RegisterRows, StripOf};
ghost use Rattle.strip_rows.specs.Passes.{range_check, accounts_check, requests_checks};

use crate::faults::first_fault;
use crate::rows::{HEAD_LENGTH, ROW_LENGTH, request_at};
use records::checks::fails_if;
use records::ranges::trade_ranges;
use rules::{Counts, Refusal, Request};

// The lowest field of the request that is out of range, among others of which the first has this proposer.
fn range_fault(q: Request, counts: Counts, proposer: u8) -> Result<(), Refusal>
    requires { q.kind ≡ kind_number register }
    ensures { result ≡ checked (applies (range_check counts proposer q)) }
{
    if q.account == proposer {
        return trade_ranges(q, counts);
    }
    Err(Refusal::OutOfRange { bit: 1 })
}

// Both accounts of the request the same.
fn accounts_fault(q: Request) -> Result<(), Refusal>
    requires { q.kind ≡ kind_number register }
    ensures { result ≡ checked (applies (accounts_check q)) }
{
    fails_if(q.account == q.other, Refusal::SameAccount)
}

// 6 of all requests, and then 7.
pub fn requests_fault(bytes: &[u8], n: usize, counts: Counts) -> Result<(), Refusal>
    requires { StripOf bytes.now n }
    ensures { result ≡ checked (first_to_apply (requests_checks counts (requests_from bytes.now head_length n))) }
{
    let first = request_at(bytes, HEAD_LENGTH, 0);
    let proposer = first.account;
    first_fault(
        n,
        |i| range_fault(request_at(bytes, HEAD_LENGTH, i), counts, proposer),
    )?;
    first_fault(n, |i| accounts_fault(request_at(bytes, HEAD_LENGTH, i)))
}

// Whether the request has this counterparty and code. Codes mostly differ, so that the code is tested first.
fn is_of_code(q: Request, other: u8, code: u64) -> bool
    ensures { result ≡ of_code other code q }
{
    (q.code == code) && (q.other == other)
}

// Whether one of the `n` rows from `at` on has this counterparty and code.
pub fn has_code(bytes: &[u8], at: usize, n: usize, other: u8, code: u64) -> bool
    requires { RegisterRows bytes.now at n }
    ensures { result ≡ any_passes (of_code other code) (requests_from bytes.now at n) }
{
    (0..n).any(|i| is_of_code(request_at(bytes, at, i), other, code))
}

// Whether two of the `n` rows from `at` on are alike in counterparty and code.
pub fn has_twins(bytes: &[u8], at: usize, n: usize) -> bool
    requires { RegisterRows bytes.now at n }
    ensures { result ≡ twins (requests_from bytes.now at n) }
{
    for i in 0..n {
        let q = request_at(bytes, at, i);
        let behind = at + ROW_LENGTH * (i + 1);
        if has_code(bytes, behind, n - i - 1, q.other, q.code) {
            return true;
        }
    }
    false
}
