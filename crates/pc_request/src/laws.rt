//! What holds of all lines and requests: each law is what a function with nothing to do ensures.

ghost use Rattle.std.specs.Prelude.{◌≡◌, ℕ, List, None};
ghost use Rattle.pc_request.specs.Operation.{IsNamed};
ghost use Rattle.pc_request.specs.Request.{IsRequest, IsWritable};
ghost use Rattle.pc_request.specs.Fault.{fault_of};
ghost use Rattle.pc_request.specs.declared.operation.Operation.{Operation};
ghost use Rattle.pc_request.specs.declared.request.Request.{Request};

/// A word names at most one operation.
pub fn one_operation_a_word()
    ensures { (one other : Operation) (word : List ℕ) → IsNamed one word → IsNamed other word → one ≡ other }
{}

/// A line is read as at most one request.
pub fn one_request_a_line()
    ensures { (one other : Request) (line : List ℕ) → IsRequest one line → IsRequest other line → one ≡ other }
{}

/// A line that is a request has no fault.
pub fn requests_have_no_fault()
    ensures { (request : Request) (line : List ℕ) → IsRequest request line → fault_of line ≡ None }
{}

/// A line that has no fault is a request.
pub fn faultless_lines_are_requests()
    ensures { (line : List ℕ) → fault_of line ≡ None → ((request : Request) × IsRequest request line) }
{}

/// What is read can be written.
pub fn requests_are_writable()
    ensures { (request : Request) (line : List ℕ) → IsRequest request line → IsWritable request }
{}
