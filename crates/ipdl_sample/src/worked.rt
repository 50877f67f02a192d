//! The sample document of one theorem, computed from the definitions.

ghost use Rattle.std.specs.Prelude.{◌≡◌, length, codes};
ghost use Rattle.ipdl_sample.specs.Samples.{sample_text};

/// The document of one theorem, and how many bytes it has. The function does nothing.
pub fn one_theorem()
    ensures text { sample_text 1 ≡ codes "(ipdl 1 (protocol L0 (inputs (m 1)) (outputs (c 1)) (new ((k 1)) (par (out c (bind x 1 (read m) (bind y 1 (read k) (ret (xor x y))))) (out k (flip 1))))) (protocol R0 (inputs (m 1)) (outputs (c 1)) (out c (bind x 1 (read m) (flip 1)))) (theorem T0 L0 R0 (left (fold () (1 0)) (mask (0 1) x0) (lin (0 1 1 0) x1) (eta (0 1))) (right)))" }
    ensures bytes { length (sample_text 1) ≡ 333 }
{}
