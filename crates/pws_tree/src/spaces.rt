//! Namespaces that the rules of XML and of SOAP name.

/// What the prefix `xml` stands for: Namespaces in XML 1.0, section 3.
pub const XML_SPACE: &str = "http://www.w3.org/XML/1998/namespace";

/// What the prefix `xmlns` stands for: Namespaces in XML 1.0, section 3.
pub const XMLNS_SPACE: &str = "http://www.w3.org/2000/xmlns/";

/// The namespace of envelopes: SOAP 1.2 Part 1, section 1.1.
pub const ENVELOPE_SPACE: &str = "http://www.w3.org/2003/05/soap-envelope";
