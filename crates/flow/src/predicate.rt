ghost use Rattle.std.specs.Prelude.{◌≡◌, ◌≤◌, ◌<◌, [], ◌∷◌, ℕ, List, All, IfOk, Some, length};
ghost use Rattle.cbi_base.specs.Text.{line_of_fields};
ghost use Rattle.flow.specs.declared.site.Site.{Site};
ghost use Rattle.flow.specs.Predicates.{IsPlaced, IsPredicate, branch_word, partner_text, predicate_count, predicate_text, predicates_of, relation_sign};
ghost use Rattle.flow.specs.Predicates.{site_at, text_of_kind, truth_word};

use crate::site::{BranchWord, Partner, Site, SiteKind, SiteTable};
use cbi_base::{Memory, Name};
use itoa::Buffer;
use std::alloc::Global;

/// How many predicates a site has.
fn predicates_of(kind: &SiteKind) -> u32
    ensures value { result ≡ predicates_of kind.now }
    ensures few { result ≤ 6 }
{
    match kind {
        SiteKind::Branch { .. } => 2,
        SiteKind::Return { .. } | SiteKind::Pair { .. } => 6,
    }
}

/// How many predicates a table has.
pub fn predicate_count(table: &SiteTable) -> u32
    ensures { result ≡ predicate_count table.now.sites }
{
    let mut count = 0;
    for site in table.sites() {
        count += predicates_of(&site.kind);
    }
    count
}

fn branch_word(word: BranchWord) -> &'static [u8]
    ensures { result.now ≡ branch_word word }
{
    match word {
        BranchWord::If => b"if",
        BranchWord::While => b"while",
        BranchWord::Do => b"do",
        BranchWord::For => b"for",
        BranchWord::Question => b"?:",
        BranchWord::AndAnd => b"&&",
        BranchWord::OrOr => b"||",
    }
}

fn truth_word(number: u32) -> &'static [u8]
    ensures { result.now ≡ truth_word number }
{
    if number == 0 { b"true" } else { b"false" }
}

fn relation_sign(number: u32) -> &'static [u8]
    ensures { result.now ≡ relation_sign number }
{
    match number {
        0 => b"<",
        1 => b"<=",
        2 => b">",
        3 => b">=",
        4 => b"==",
        _ => b"!=",
    }
}

/// Three words, parted by spaces.
fn three_words(alloc: Global, first: &[u8], second: &[u8], third: &[u8]) -> Result<Vec<u8>, Memory>
    ensures { IfOk result (λ text. text.items ≡ line_of_fields (first.now ∷ second.now ∷ third.now ∷ [])) }
{
    let mut text = Vec::from_slice(alloc, first)?;
    text.push(b' ')?;
    text.extend_from_slice(second)?;
    text.push(b' ')?;
    text.extend_from_slice(third)?;
    Ok(text)
}

/// The text of a predicate of a pair site.
fn pair_text(
    alloc: Global,
    target: &Name,
    number: u32,
    partner: &Partner,
) -> Result<Vec<u8>, Memory>
    ensures { IfOk result (λ text. text.items ≡ line_of_fields (target.now ∷ relation_sign number ∷ partner_text partner.now ∷ [])) }
{
    let sign = relation_sign(number);
    match partner {
        Partner::Variable { name, .. } => {
            let text = three_words(alloc, target.bytes(), sign, name.bytes())?;
            Ok(text)
        }
        Partner::Constant { value } => {
            let mut buffer = Buffer::new();
            let constant = buffer.format(*value).as_bytes();
            let text = three_words(alloc, target.bytes(), sign, constant)?;
            Ok(text)
        }
    }
}

/// The text of a site's predicate with this number.
fn text_of_kind(alloc: Global, kind: &SiteKind, number: u32) -> Result<Vec<u8>, Memory>
    ensures { IfOk result (λ text. text.items ≡ text_of_kind kind.now number) }
{
    match kind {
        SiteKind::Branch { word } => {
            let text = three_words(alloc, branch_word(*word), b"is", truth_word(number))?;
            Ok(text)
        }
        SiteKind::Return { callee } => {
            let text = three_words(alloc, callee.bytes(), relation_sign(number), b"0")?;
            Ok(text)
        }
        SiteKind::Pair {
            target,
            partner,
            ..
        } => {
            let text = pair_text(alloc, target, number, partner)?;
            Ok(text)
        }
    }
}

/// The site of a predicate among these, which stand in so many functions, and the predicate's number among those of that site.
fn site_of(sites: &[Site], functions: usize, predicate: u32) -> (&Site, u32)
    requires predicate { predicate < predicate_count sites.now }
    requires functions { All (λ (s : Site). s.function < functions) sites.now }
    ensures site { site_at sites.now predicate ≡ Some result.0.now }
    ensures function { result.0.now.function < functions }
    ensures text { predicate_text sites.now predicate ≡ text_of_kind result.0.now.kind result.1 }
    ensures own { result.1 < predicates_of result.0.now.kind }
{
    let mut number = predicate;
    for site in sites {
        let own = predicates_of(&site.kind);
        if number < own {
            return (site, number);
        }
        number -= own;
    }
    unreachable!()
}

/// The site of a predicate of the table, which stands in one of its functions, and the predicate's number among those of that site.
pub fn predicate_site(table: &SiteTable, predicate: u32) -> (&Site, u32)
    requires { predicate < predicate_count table.now.sites }
    ensures site { site_at table.now.sites predicate ≡ Some result.0.now }
    ensures function { result.0.now.function < length table.now.functions }
    ensures text { predicate_text table.now.sites predicate ≡ text_of_kind result.0.now.kind result.1 }
    ensures own { result.1 < predicates_of result.0.now.kind }
{
    let functions = table.functions().len();
    site_of(table.sites(), functions, predicate)
}

/// The text of a predicate of the table.
pub fn predicate_name(alloc: Global, table: &SiteTable, predicate: u32) -> Result<Vec<u8>, Memory>
    requires { predicate < predicate_count table.now.sites }
    ensures { IfOk result (λ text. text.items ≡ predicate_text table.now.sites predicate) }
{
    let (site, number) = predicate_site(table, predicate);
    let text = text_of_kind(alloc, &site.kind, number)?;
    Ok(text)
}

/// Laws: the text of a predicate is that of its site's kind with its number among the predicates of the site; and each number below the
/// count is that of one predicate of one site.
pub fn predicates_in_order()
    ensures text { (sites : List Site) (predicate place number : ℕ) (site : Site) → IsPredicate sites predicate place site number
        → predicate_text sites predicate ≡ text_of_kind site.kind number }
    ensures counted { (sites : List Site) (predicate place number : ℕ) (site : Site) → IsPredicate sites predicate place site number
        → predicate < predicate_count sites }
    ensures placed { (sites : List Site) (predicate : ℕ) → predicate < predicate_count sites → IsPlaced sites predicate }
    ensures once { (sites : List Site) (predicate one other m n : ℕ) (a b : Site) → IsPredicate sites predicate one a m
        → IsPredicate sites predicate other b n → (one ≡ other) × (m ≡ n) }
{}
