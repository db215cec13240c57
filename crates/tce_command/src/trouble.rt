// What is wrong with array files, certificates, einsum texts, trees that are cut and files of stored pairs.
ghost use Rattle.std.specs.Prelude.{◌≡◌};
ghost use Rattle.tce_command.specs.Report.{fault_of, trouble_of, IsFlawOfPlan, IsFlawOfText};

use tce_array::ArrayFault;
use tce_cert::CertFault;
use tce_check::Verdict;
use tce_nesting::Nesting;
use tce_space::IndexSet;
use tce_spec::SpecFault;

/// Why a file that is there is no array of a tensor's shape.
#[derive(Clone, Copy)]
pub enum ArrayTrouble {
    /// The file has this length in bytes, which is not that of an array of the shape.
    BadLength(u64),
    /// The head of the file is wrong at this byte place.
    BadHeader(u64),
}

impl ArrayTrouble {
    /// The fault of the array, which is neither an absent file nor a failure of the disk.
    pub fn fault(self) -> ArrayFault
        ensures { result ≡ fault_of self }
    {
        match self {
            ArrayTrouble::BadLength(len) => ArrayFault::BadLength(len),
            ArrayTrouble::BadHeader(place) => ArrayFault::BadHeader(place),
        }
    }
}

/// Why a certificate is refused.
#[derive(Drop)]
pub enum CertTrouble {
    /// The text is no certificate of a plan that fits the tree.
    Text(CertFault),
    /// The plan breaks this rule.
    Verdict(Verdict),
}

/// What is wrong with a certificate: what [`CertTrouble`] says of it, without want of memory and an accepted plan.
#[derive(Drop)]
pub enum CertFlaw {
    /// This line, counted from 1, has none of the forms of lines, has no line feed, or is missing.
    BadText(u64),
    /// This line, counted from 1, has a form, and does not fit the tree or its place.
    WrongTree(u64),
    /// At this node two loops have scopes of which neither contains the other.
    NotLegal(u8),
    /// At this node the fused loops do not lead its order and its parent's.
    OrderWrong(u8),
    /// This node keeps that many elements, and another number is stated.
    SizeWrong(u8, u128),
    /// The nodes but the root keep that many elements together, and another number is stated.
    TotalWrong(u128),
    /// No row of this node stands for the state with these classes and this cost, to which a step with this fused set leads.
    NotCovered(u8, IndexSet, Nesting, u128),
    /// At the root two rows have this sum, which is below the stated memory.
    BelowTotal(u128),
}

impl CertFlaw {
    /// What is wrong with a text that is not read, or `None` where memory was wanting.
    pub fn of_text(fault: CertFault) -> Option<Self>
        ensures { IsFlawOfText fault result }
    {
        match fault {
            CertFault::BadText(line) => Some(CertFlaw::BadText(line)),
            CertFault::WrongTree(line) => Some(CertFlaw::WrongTree(line)),
            CertFault::Memory => None,
        }
    }

    /// What is wrong with a plan, or `None` where it is accepted.
    pub fn of_plan(verdict: Verdict) -> Option<Self>
        ensures { IsFlawOfPlan verdict result }
    {
        match verdict {
            Verdict::Accepted => None,
            Verdict::NotLegal(v) => Some(CertFlaw::NotLegal(v)),
            Verdict::OrderWrong(v) => Some(CertFlaw::OrderWrong(v)),
            Verdict::SizeWrong(v, size) => Some(CertFlaw::SizeWrong(v, size)),
            Verdict::TotalWrong(total) => Some(CertFlaw::TotalWrong(total)),
            Verdict::NotCovered(v, fused, classes, cost) => {
                Some(CertFlaw::NotCovered(v, fused, classes, cost))
            }
            Verdict::BelowTotal(sum) => Some(CertFlaw::BelowTotal(sum)),
        }
    }

    /// What a status says of the certificate.
    pub fn trouble(self) -> CertTrouble
        ensures { result ≡ trouble_of self }
    {
        match self {
            CertFlaw::BadText(line) => CertTrouble::Text(CertFault::BadText(line)),
            CertFlaw::WrongTree(line) => CertTrouble::Text(CertFault::WrongTree(line)),
            CertFlaw::NotLegal(v) => CertTrouble::Verdict(Verdict::NotLegal(v)),
            CertFlaw::OrderWrong(v) => CertTrouble::Verdict(Verdict::OrderWrong(v)),
            CertFlaw::SizeWrong(v, size) => CertTrouble::Verdict(Verdict::SizeWrong(v, size)),
            CertFlaw::TotalWrong(total) => CertTrouble::Verdict(Verdict::TotalWrong(total)),
            CertFlaw::NotCovered(v, fused, classes, cost) => {
                CertTrouble::Verdict(Verdict::NotCovered(v, fused, classes, cost))
            }
            CertFlaw::BelowTotal(sum) => CertTrouble::Verdict(Verdict::BelowTotal(sum)),
        }
    }
}

/// Why an einsum text that is contracted along a path is refused.
#[derive(Clone, Copy)]
pub enum EinsumTrouble {
    /// The text has not the form of operands, an output and sizes.
    BadText,
    /// This label, a letter in ASCII, has not exactly one size, or has one and stands nowhere.
    BadSize(u8),
    /// This item of the path, counted from 0, names no entries that it may join; or the path has this number of items, and
    /// more than one entry is left.
    BadPath(u64),
    /// The text that is written is no specification.
    Spec(SpecFault),
}

/// Why a tree is not cut for a limit.
#[derive(Clone, Copy)]
pub enum SpillTrouble {
    /// Thirty-two tensors are declared, so that a piece may need more than there may be.
    TooManyTensors,
    /// With all nodes cut that may be, the piece of this root takes so many elements at least, more than the limit.
    LimitTooSmall(u8, u128),
}

/// Why a file of elements that are stored once for each pair is refused.
#[derive(Clone, Copy)]
pub enum SymTrouble {
    /// The file has this length in bytes, which is not that of its positions and its sign.
    BadLength(u64),
    /// The head of the file is wrong at this byte place.
    BadHeader(u64),
}
