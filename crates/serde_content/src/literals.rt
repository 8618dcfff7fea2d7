//! Values written as literals.

/// Makes a value of a literal. Braces make a `Map` of their entries, in the order written, and
/// square brackets a `Seq`; `()` is the unit, and any other expression what `Value::from` makes of
/// it, as each key is. A block or an array that is meant as an expression goes into parentheses.
///
/// It gives a `Result<Value<'_>>`. Each list or map that isn't empty takes one allocation, and
/// nothing else takes memory; texts are borrowed where `Value::from` borrows them. What it makes is
/// proved as a part of the function that it is in, which knows the whole tree.
///
/// A list or a map may have any length where each key and each item is one token, or one group in
/// brackets, and else about thirty entries.
///
/// # Errors
///
/// `OutOfMemory`.
///
/// ```rust
/// let value = value!(in alloc; { "name": name, "sizes": [1u8, 2u8], "rest": {} })?;
/// assert!(rt; value.get_str("sizes") == Some(&value!(in alloc; [1u8, 2u8])?));
/// ```
#[macro_export]
macro_rules! value {
    (in $alloc:expr; $($literal:tt)+) => {{
        let alloc = $alloc;
        let made: $crate::Result<$crate::Value<'_>> = 'made: {
            Ok($crate::value!(@of alloc 'made $($literal)+))
        };
        made
    }};

    // The value of one item; where memory runs out the block `$out` is left with the error.
    (@of $alloc:ident $out:lifetime []) => {
        $crate::Value::Seq(std::vec::Vec::new($alloc))
    };
    (@of $alloc:ident $out:lifetime [$($item:tt),+ $(,)?]) => {
        $crate::Value::Seq($crate::value!(@try $out std::vec![in $alloc;
            $($crate::value!(@of $alloc $out $item)),+
        ]))
    };
    (@of $alloc:ident $out:lifetime [$($items:tt)+]) => {
        $crate::value!(@items $alloc $out [] $($items)+)
    };
    (@of $alloc:ident $out:lifetime {}) => {
        $crate::Value::Map(std::vec::Vec::new($alloc))
    };
    (@of $alloc:ident $out:lifetime {$($key:tt : $item:tt),+ $(,)?}) => {
        $crate::Value::Map($crate::value!(@try $out std::vec![in $alloc;
            $(($crate::Value::from($key), $crate::value!(@of $alloc $out $item))),+
        ]))
    };
    (@of $alloc:ident $out:lifetime {$($entries:tt)+}) => {
        $crate::value!(@entries $alloc $out [] () $($entries)+)
    };
    (@of $alloc:ident $out:lifetime $item:expr) => {
        $crate::Value::from($item)
    };

    // `?`, which leaves the block `$out` and not the function.
    (@try $out:lifetime $step:expr) => {
        match $step {
            Ok(done) => done,
            Err(refused) => break $out Err($crate::Error::from(refused)),
        }
    };

    // Each item as one group.
    (@items $alloc:ident $out:lifetime [$($done:tt)*]) => {
        $crate::value!(@of $alloc $out [$($done),*])
    };
    (@items $alloc:ident $out:lifetime [$($done:tt)*] $item:tt $(, $($rest:tt)*)?) => {
        $crate::value!(@items $alloc $out [$($done)* $item] $($($rest)*)?)
    };
    (@items $alloc:ident $out:lifetime [$($done:tt)*] $item:expr $(, $($rest:tt)*)?) => {
        $crate::value!(@items $alloc $out [$($done)* ($item)] $($($rest)*)?)
    };

    // Each key, which ends at its colon, and each item as one group.
    (@entries $alloc:ident $out:lifetime [$($done:tt)*] ()) => {
        $crate::value!(@of $alloc $out {$($done)*})
    };
    (@entries $alloc:ident $out:lifetime [$($done:tt)*] ($($key:tt)+)
        : $item:tt $(, $($rest:tt)*)?) => {
        $crate::value!(@entries $alloc $out [$($done)* ($($key)+): $item,] () $($($rest)*)?)
    };
    (@entries $alloc:ident $out:lifetime [$($done:tt)*] ($($key:tt)+)
        : $item:expr $(, $($rest:tt)*)?) => {
        $crate::value!(@entries $alloc $out [$($done)* ($($key)+): ($item),] () $($($rest)*)?)
    };
    (@entries $alloc:ident $out:lifetime [$($done:tt)*] ($($key:tt)*) $next:tt $($rest:tt)*) => {
        $crate::value!(@entries $alloc $out [$($done)*] ($($key)* $next) $($rest)*)
    };
    (@$part:ident $($rest:tt)*) => {
        compile_error!("a literal is an expression, `[item, item]` or `{ key: item, key: item }`")
    };
    ($($rest:tt)*) => {
        compile_error!("`value!` takes an allocator first: write `value!(in alloc; [1u8])?`")
    };
}
