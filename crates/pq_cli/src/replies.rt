// What the replies of the commands mean. A reply is a status and a text, as one relation on a command and the bytes of its
// files (`Replies`), with a case for each command. The functions here have no more than calls of other laws in their
// bodies: their contracts are the laws.
pub mod check;
pub mod core_rows;
pub mod extend;
pub mod list;
pub mod meet;
pub mod promise;
pub mod solve;
pub mod unit;
pub mod unit_check;
