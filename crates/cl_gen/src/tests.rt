//! Workloads of 1, 3 and 1,000 items.
use crate::make;
use std::test::Fail;

const APPLICATION_OF_ONE: &[u8] = b"(define-record item key label)
(define-application-frame list-app (:size 10 20)
  (:slots (items (sequence item)
    (map k (range 1 1) (make item k \"a\"))))
  (:panes (p 0 0 10 20 show)))
(define-display show ()
  (dolist (i (slot items))
    (updating-output (:unique-id (get i key) :cache-value (list i))
      (write-text (get i label)) (newline))))
(define-command com-set ((k integer) (s string))
  (setf (slot items)
    (map i (slot items) (if (= (get i key) k) (with i label s) i))))
(define-command com-front ((k integer) (s string))
  (setf (slot items) (cons (make item k s) (slot items))))
";

const APPLICATION_OF_THREE: &[u8] = b"(define-record item key label)
(define-application-frame list-app (:size 10 20)
  (:slots (items (sequence item)
    (map k (range 1 3) (make item k \"a\"))))
  (:panes (p 0 0 10 20 show)))
(define-display show ()
  (dolist (i (slot items))
    (updating-output (:unique-id (get i key) :cache-value (list i))
      (write-text (get i label)) (newline))))
(define-command com-set ((k integer) (s string))
  (setf (slot items)
    (map i (slot items) (if (= (get i key) k) (with i label s) i))))
(define-command com-front ((k integer) (s string))
  (setf (slot items) (cons (make item k s) (slot items))))
";

const GESTURES_OF_ONE: &[u8] = b"type Set 1 b
return
type Front 0 z
return
";

const GESTURES_OF_THREE: &[u8] = b"type Set 1 b
return
type Set 2 b
return
type Set 3 b
return
type Front 0 z
return
";

#[test]
fn one_item(rt: HostRuntime) -> Result<(), Fail> {
    let (application, gestures) = make(rt.alloc(), 1)?;
    assert_eq!(rt; application.as_slice(), APPLICATION_OF_ONE);
    assert_eq!(rt; gestures.as_slice(), GESTURES_OF_ONE);
    Ok(())
}

#[test]
fn three_items(rt: HostRuntime) -> Result<(), Fail> {
    let (application, gestures) = make(rt.alloc(), 3)?;
    assert_eq!(rt; application.as_slice(), APPLICATION_OF_THREE);
    assert_eq!(rt; gestures.as_slice(), GESTURES_OF_THREE);
    Ok(())
}

// The number has four digits in place of one, and so has one key; 9 keys have one digit, 90 two and 900 three.
#[test]
fn a_thousand_items(rt: HostRuntime) -> Result<(), Fail> {
    let (application, gestures) = make(rt.alloc(), 1000)?;
    assert_eq!(rt; application.as_slice().len(), 605);
    assert_eq!(rt; gestures.as_slice().len(), 21_915);
    Ok(())
}
