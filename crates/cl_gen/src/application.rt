//! The text of the application.
ghost use Rattle.std.specs.Prelude.{◌≡◌, IfOk};
ghost use Rattle.cl_gen.specs.Workload.{application_text};

use itoa::Buffer;
use std::alloc::{AllocError, Global};

/// What stands before the number of the items.
const BEFORE: &[u8] = b"(define-record item key label)
(define-application-frame list-app (:size 10 20)
  (:slots (items (sequence item)
    (map k (range 1 ";

/// What stands behind the number of the items.
const BEHIND: &[u8] = b") (make item k \"a\"))))
  (:panes (p 0 0 10 20 show)))
(define-display show ()
  (dolist (i (slot items))
    (updating-output (:unique-id (get i key) :cache-value (list i))
      (write-text (get i label)) (newline))))
(define-command com-set ((k integer) (s string))
  (setf (slot items)
    (map i (slot items) (if (= (get i key) k) (with i label s) i))))
(define-command com-front ((k integer) (s string))
  (setf (slot items) (cons (make item k s) (slot items))))
";

/// The text of the application of `n` items.
pub fn application_text(alloc: Global, n: u32) -> Result<Vec<u8>, AllocError>
    ensures { IfOk result (λ text. text.items ≡ application_text n) }
{
    let mut text = Vec::from_slice(alloc, BEFORE)?;
    text.extend_from_slice(Buffer::new().format(n).as_bytes())?;
    text.extend_from_slice(BEHIND)?;
    Ok(text)
}
