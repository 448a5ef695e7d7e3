#![tactic(auto)]

// One permission, held as its code, and one access. A number from 15 on holds no permission: nothing changes it, and it allows everything.
ghost use Rattle.std.specs.Prelude.{◌≡◌};
ghost use Rattle.std.proofs.Math.Option.{some};
ghost use Rattle.definition.specs.Permission.{code};
ghost use Rattle.definition.specs.Permission.AccessKind.{Read, Write};
ghost use Rattle.definition.specs.Permission.NodeRelation.{Local, Foreign};
ghost use Rattle.definition.specs.Retag.{start_perm};
ghost use Rattle.permission.specs.Codes.{access_kind, node_relation, maybe_access, numbered, protector, safe_pointer, transition_code, next_code, is_protected_code, unprotected_code, end_access_code, prevents_code, init_access_code};

use refusal::Refusal;

#[derive(Clone, Copy, PartialEq, Eq)]
pub enum AccessKind {
    Read,
    Write,
}

// Of a node to the accessed one: local to the accessed node and its ancestors, else foreign.
#[derive(Clone, Copy, PartialEq, Eq)]
pub enum NodeRelation {
    Local,
    Foreign,
}

// What an access makes of a code: it stays (`None`), it becomes another code, or the access is refused.
pub type Outcome = Result<Option<u8>, Refusal>;

fn local_read(code: u8) -> Outcome
    ensures { numbered result ≡ transition_code Read Local code }
{
    match code {
        0..=4 => Ok(None),
        5 => Err(Refusal::LocalReadOfDisabled),
        6 | 8 | 13 => Ok(None),
        7 => Ok(Some(8)),
        9 => Ok(Some(10)),
        10..=11 => Ok(None),
        12 => Ok(Some(13)),
        14 => Err(Refusal::LocalReadOfProtectedDisabled),
        _ => Ok(None),
    }
}

fn local_write(code: u8) -> Outcome
    ensures { numbered result ≡ transition_code Write Local code }
{
    match code {
        0 | 3 | 6 | 11 => Ok(None),
        1..=2 => Ok(Some(3)),
        4 => Err(Refusal::LocalWriteOfFrozen),
        5 => Err(Refusal::LocalWriteOfDisabled),
        7..=8 => Ok(Some(11)),
        9..=10 => Err(Refusal::LocalWriteOfReserved),
        12..=13 => Err(Refusal::LocalWriteOfProtectedFrozen),
        14 => Err(Refusal::LocalWriteOfProtectedDisabled),
        _ => Ok(None),
    }
}

fn foreign_read(code: u8) -> Outcome
    ensures { numbered result ≡ transition_code Read Foreign code }
{
    match code {
        0..=2 => Ok(None),
        3 => Ok(Some(4)),
        4..=6 => Ok(None),
        7 => Ok(Some(9)),
        8 => Ok(Some(10)),
        9..=10 => Ok(None),
        11 => Err(Refusal::ForeignReadOfUnique),
        _ => Ok(None),
    }
}

fn foreign_write(code: u8) -> Outcome
    ensures { numbered result ≡ transition_code Write Foreign code }
{
    match code {
        0 | 2 | 14 => Ok(None),
        1 => Ok(Some(5)),
        3..=4 => Ok(Some(5)),
        5..=6 => Ok(None),
        7 | 9 | 12 => Ok(Some(14)),
        8 | 10 | 13 => Err(Refusal::ForeignWriteOfRead),
        11 => Err(Refusal::ForeignWriteOfUnique),
        _ => Ok(None),
    }
}

// By relation and then by access, in functions of their own: the compiler puts no larger match into a loop.
// Of an access through the node itself or a descendant.
pub fn local(code: u8, access: AccessKind) -> Outcome
    ensures { numbered result ≡ transition_code (access_kind access) Local code }
{
    match access {
        AccessKind::Read => local_read(code),
        AccessKind::Write => local_write(code),
    }
}

// Of an access through any other node.
pub fn foreign(code: u8, access: AccessKind) -> Outcome
    ensures { numbered result ≡ transition_code (access_kind access) Foreign code }
{
    match access {
        AccessKind::Read => foreign_read(code),
        AccessKind::Write => foreign_write(code),
    }
}

// In the loops over rows a call of it at each byte would cost more than the match.
#[inline(always)]
pub fn transition(code: u8, access: AccessKind, relation: NodeRelation) -> Outcome
    ensures { numbered result ≡ transition_code (access_kind access) (node_relation relation) code }
{
    match relation {
        NodeRelation::Local => local(code, access),
        NodeRelation::Foreign => foreign(code, access),
    }
}

// The code that an access leaves: one that it is refused at stays.
pub fn next(code: u8, access: AccessKind, relation: NodeRelation) -> u8
    ensures { result ≡ next_code (some (access_kind access)) (node_relation relation) code }
{
    match transition(code, access, relation) {
        Ok(next) => next.unwrap_or(code),
        Err(_) => code,
    }
}

pub fn is_protected(code: u8) -> bool
    ensures { result ≡ is_protected_code code }
{
    matches!(code, 6..=14)
}

// The code without the protector; `end_access` is the access that goes with it.
pub fn unprotect(code: u8) -> u8
    ensures { result ≡ unprotected_code code }
{
    match code {
        0..=5 => code,
        6 => 0,
        7..=10 => 1,
        11 => 3,
        12..=13 => 4,
        14 => 5,
        _ => code,
    }
}

// The access that the protector's end makes.
pub fn end_access(code: u8) -> Option<AccessKind>
    ensures { maybe_access result ≡ end_access_code code }
{
    match code {
        8 | 10 | 13 => Some(AccessKind::Read),
        11 => Some(AccessKind::Write),
        _ => None,
    }
}

pub fn prevents_deallocation(code: u8) -> bool
    ensures { result ≡ prevents_code code }
{
    matches!(code, 8 | 10 | 11 | 13)
}

// The pointers that a retag makes a node for.
#[derive(Clone, Copy, PartialEq, Eq)]
pub enum SafePointer {
    SharedRef,
    MutableRef,
    Box,
}

#[derive(Clone, Copy, PartialEq, Eq)]
pub enum Protected {
    No,
    Weak,
    Strong,
}

// The code that a retagged byte starts with, by whether it is a freeze byte or a cell byte.
pub fn start_code(pointer: SafePointer, protected: Protected, freeze: bool) -> u8
    ensures { result ≡ code (start_perm (safe_pointer pointer) (protector protected) freeze) }
{
    match pointer {
        SafePointer::SharedRef => match protected {
            Protected::No => if freeze { 4 } else { 0 },
            Protected::Weak | Protected::Strong => if freeze { 12 } else { 6 },
        },
        SafePointer::MutableRef | SafePointer::Box => match protected {
            Protected::No => if freeze { 1 } else { 2 },
            Protected::Weak | Protected::Strong => 7,
        },
    }
}

// The access by which a retag reads a byte that starts with a code.
pub fn init_access(code: u8) -> Option<AccessKind>
    ensures { maybe_access result ≡ init_access_code code }
{
    match code {
        0 | 6 => None,
        1..=5 => Some(AccessKind::Read),
        7..=14 => Some(AccessKind::Read),
        _ => None,
    }
}
